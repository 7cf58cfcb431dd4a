use dm_io::{
    FolderStore, MemorySink, MemoryStore, ReadError, StdSink, Store, WriteFail, read_whole,
    write_whole,
};
use std::io::{self, Write};
use std::test::Fail;
use std::{env, fs, process};

#[test]
fn a_file_is_read_whole_or_up_to_the_limit(rt: HostRuntime) -> Result<(), Fail> {
    let alloc = rt.alloc();
    let table: [(usize, &[u8]); 5] = [
        (0, b""),
        (1, b"0"),
        (9, b"012345678"),
        (10, b"0123456789"),
        (11, b"0123456789"),
    ];
    for (most, want) in table {
        let mut files = Vec::new(alloc);
        files.push((
            String::from_str(alloc, "digits")?,
            b"0123456789".to_vec(alloc)?,
        ))?;
        let mut store = MemoryStore::new(files, Vec::new(alloc), 4);
        let text = read_whole(alloc, &mut store, "digits", most)?;
        assert_eq!(rt; text.as_slice(), want, "most {most}");
    }
    Ok(())
}

#[test]
fn a_reserved_sink_keeps_the_first_bytes(rt: HostRuntime) -> Result<(), Fail> {
    let alloc = rt.alloc();
    let mut sink = MemorySink::reserved(alloc, 7)?;
    let table: [(&[u8], &[u8]); 4] = [
        (b"abc", b"abc"),
        (b"defg", b"abcdefg"),
        (b"hi", b"abcdefg"),
        (b"j", b"abcdefg"),
    ];
    for (piece, taken) in table {
        assert_eq!(rt; write_whole(&mut sink, piece), Ok(()));
        assert_eq!(rt; sink.bytes(), taken);
    }
    Ok(())
}

#[test]
fn a_file_is_read_on_under_another_name_and_the_input_once(rt: HostRuntime) -> Result<(), Fail> {
    let alloc = rt.alloc();
    let name = format!(in alloc; "dm_io_renamed_{}", process::id(rt.process()))?;
    let path = env::temp_dir(&rt)?.join(alloc, name.as_str())?;
    let path = path.into_string();
    let other = format!(in alloc; "{path}.1")?;
    fs::write(&rt, path.as_str(), "01234567")?;
    let mut store = FolderStore::new(&rt, alloc, b"abc".as_slice());
    let mut piece = [0u8; 4];
    assert_eq!(rt; store.read(path.as_str(), 0, &mut piece), Ok(4));
    fs::rename(&rt, path.as_str(), other.as_str())?;
    assert_eq!(rt; store.read(path.as_str(), 4, &mut piece), Ok(4));
    fs::remove_file(&rt, other.as_str())?;
    assert_eq!(rt; piece.as_slice(), b"4567".as_slice());
    let input = read_whole(alloc, &mut store, "-", 9)?;
    assert_eq!(rt; input.as_slice(), b"abc".as_slice());
    let again = read_whole(alloc, &mut store, "-", 9);
    assert_eq!(rt; again.map(|t| t.len()), Err(ReadError::Fault));
    Ok(())
}

// A writer that takes two bytes of a piece, and nothing once it has five.
#[derive(Drop)]
struct Narrow {
    held: Vec<u8>,
}

impl Write for Narrow {
    fn write(&mut self, piece: &[u8]) -> io::Result<usize> {
        let count = if self.held.len() < 5 {
            piece.len().min(2)
        } else {
            0
        };
        self.held.extend_from_slice(&piece[..count])?;
        Ok(count)
    }

    fn flush(&mut self) -> io::Result<()> {
        Ok(())
    }
}

#[test]
fn a_std_sink_writes_to_its_writer(rt: HostRuntime) -> Result<(), Fail> {
    let alloc = rt.alloc();
    let mut held = Vec::new(alloc);
    let mut sink = StdSink::new(&mut held);
    assert_eq!(rt; write_whole(&mut sink, b"abc"), Ok(()));
    assert_eq!(rt; held.as_slice(), b"abc".as_slice());
    let mut narrow = StdSink::new(Narrow {
        held: Vec::new(alloc),
    });
    assert_eq!(rt; write_whole(&mut narrow, b"abcd"), Ok(()));
    assert_eq!(rt; write_whole(&mut narrow, b"efgh"), Err(WriteFail));
    let mut stderr = StdSink::new(rt.stderr());
    assert_eq!(rt; write_whole(&mut stderr, b"to standard error\n"), Ok(()));
    Ok(())
}
