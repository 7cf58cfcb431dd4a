ghost use Rattle.std.specs.Prelude.{◌≡◌, ◌≤◌, ℕ, List, length};
ghost use Rattle.sys_table.specs.ResultsText.{AreResults, AreResultsWithin, IsResultsRefusal, longest, most};
ghost use Rattle.sys_table.specs.declared.results_error.ResultsError.{ResultsError};
ghost use Rattle.sys_table.specs.declared.results_error.ResultsError.TheVariants.{OutOfMemory};
ghost use Rattle.sys_table.specs.declared.sys_result.SysResult.{SysResult};

/// The laws that a text is that of one list of records at most; that there is no reason but want of
/// memory to refuse the text of records within the limits; and that a text of records, as
/// `write_results` gives it, is within the limits where their number and its length are, so that
/// `read_results` reads these records back. It does nothing.
pub fn one_list_of_results()
    ensures one { (text : List ℕ) (records others : List SysResult) → AreResults text records → AreResults text others → others ≡ records }
    ensures unrefused { (text : List ℕ) (records : List SysResult) (error : ResultsError) → AreResultsWithin text records → IsResultsRefusal error text → error ≡ OutOfMemory }
    ensures written { (text : List ℕ) (records : List SysResult) → AreResults text records → length records ≤ most → length text ≤ longest → AreResultsWithin text records }
{}
