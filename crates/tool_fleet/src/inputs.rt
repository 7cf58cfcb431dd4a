use c_tree::Program;
use dm_base::Bytes;
use flow_model::Model;
use sys_table::SysResult;

/// A process whose files were read: its number, the number of its group, its program, the recorded results and the turns of its run.
pub struct ProcessInput {
    pub pid: u32,
    pub group: u32,
    pub program: Program,
    pub results: Vec<SysResult>,
    pub turns: u32,
}

impl Drop for ProcessInput {
    fn drop(self) {
        let Self {
            pid: _,
            group: _,
            program: _program,
            results: _results,
            turns: _,
        } = self;
    }
}

/// The model of a group, with the name of its file and the bound of the Dyck model.
#[derive(Drop)]
pub struct GroupModel {
    pub name: Bytes,
    pub model: Model,
    pub bound: u32,
}

/// The processes of a schedule whose files were read, in order, and the models of their groups.
pub struct Inputs {
    pub processes: Vec<ProcessInput>,
    pub groups: Vec<GroupModel>,
}

impl Drop for Inputs {
    fn drop(self) {
        let Self {
            processes: _processes,
            groups: _groups,
        } = self;
    }
}
