ghost use Rattle.tool_audit.specs.Headline.{TheHeadline};

use tool_audit::texts_keep_the_headline;

/// The headline of the tool, on definitions alone: for every C text that the checker accepts, all recorded results and every bound of
/// turns, the instrumented program does what the plain one does once null calls are erased; the program's models contain the trace of
/// every such run, Dyck inside abstract stack inside callgraph; and each monitor accepts exactly its model's words, the Dyck monitor up to
/// its bound of open calls (Wagner and Dean 2001; Giffin, Jha and Miller 2004). What the commands write is tied to these
/// definitions by the clauses of `run_tool`. The function does nothing.
pub fn the_headline_holds()
    ensures { TheHeadline }
{
    texts_keep_the_headline();
}
