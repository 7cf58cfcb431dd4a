use dm_base::{Pattern, SysName};

// What is done along an edge.
#[derive(Clone, Copy)]
pub enum Label {
    // Nothing is read.
    Silent,
    // A system call is read whose recorded arguments fit the pattern.
    System(SysName, Pattern),
    // The call at the site is passed.
    Site(u32),
}

// An edge of the graph of shapes.
#[derive(Clone, Copy)]
pub struct Edge {
    // The node that it leaves.
    pub from: u32,
    // What is done along it.
    pub label: Label,
    // The node to which it leads.
    pub to: u32,
}

// The nodes to which a shape's exits lead: its end, a break, a continue and a return.
#[derive(Clone, Copy)]
pub struct Places {
    pub to: u32,
    pub brk: u32,
    pub con: u32,
    pub ret: u32,
}
