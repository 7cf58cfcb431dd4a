use c_syntax::{Ident, Item, ItemKind, Unit};
use c_syntax_printing::print;
use dm_base::Bytes;
use std::alloc::Global;
use std::test::Fail;

// The unit of the text `struct s;`.
fn unit_of_a_tag(alloc: Global) -> Result<Unit, Fail> {
    let name = Bytes::of(alloc, b"s")?;
    let mut items = Vec::new(alloc);
    let tag = ItemKind::Tag(Ident { name, at: 7 });
    items.push(Item { at: 0, kind: tag })?;
    Ok(Unit { items })
}

#[test]
fn a_unit_is_printed(rt: HostRuntime) -> Result<(), Fail> {
    let unit = unit_of_a_tag(rt.alloc())?;
    assert_eq!(rt;
        print(rt.alloc(), &unit)?.as_slice(),
        b"struct s ;\n".as_slice()
    );
    Ok(())
}
