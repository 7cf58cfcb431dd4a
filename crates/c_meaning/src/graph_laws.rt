ghost use Rattle.std.specs.Prelude.{◌≡◌, ◌≤◌, List, length};
ghost use Rattle.std.specs.Prelude.{ℕ};
ghost use Rattle.dm_base.specs.declared.event.Event.{Event};
ghost use Rattle.c_meaning.specs.Shape.{Shapes};
ghost use Rattle.c_meaning.specs.Languages as shapes;
ghost use Rattle.c_meaning.specs.ProgramLanguages as programs;
ghost use Rattle.c_meaning.specs.Tree.{Program};
ghost use Rattle.c_meaning.specs.Program.{IsProgram};
ghost use Rattle.flow_model.specs.declared.which.Which.TheVariants.{Callgraph, Stack, Dyck};
ghost use Rattle.flow_model.specs.Language.{Reads};
ghost use Rattle.flow_model.specs.Rules.{IsValid};
ghost use Rattle.c_meaning.specs.GraphOf.{graph_of};
ghost use Rattle.c_meaning.specs.GraphOfProgram.{graph_of_program};
ghost use Rattle.c_meaning.specs.Premises.{AreClosed, AreNamed};
ghost use Rattle.c_meaning.specs.Equal.{AreEqual};

/// The law that the graph of shapes has the three languages of the shapes. The function does nothing.
pub fn graph_has_the_words()
    ensures dyck { (names : List (List ℕ)) (env : Shapes) → AreClosed env → length names ≡ length env.functions → AreEqual (shapes.Dyck env) (Reads Dyck (graph_of names env)) }
    ensures stack { (names : List (List ℕ)) (env : Shapes) → AreClosed env → length names ≡ length env.functions → AreEqual (shapes.Stack env) (Reads Stack (graph_of names env)) }
    ensures callgraph { (names : List (List ℕ)) (env : Shapes) → AreClosed env → length names ≡ length env.functions → AreEqual (shapes.Callgraph env) (Reads Callgraph (graph_of names env)) }
{}

/// The law that the graph of shapes is a valid model where the shapes are closed, the functions have
/// names and there are at most 200,000 nodes. The function does nothing.
pub fn graph_is_valid()
    ensures { (names : List (List ℕ)) (env : Shapes) → AreClosed env → AreNamed names env → IsValid (graph_of names env) }
{}

/// The law that the graph of a well-typed program has the three languages of the program. The function
/// does nothing.
pub fn program_graph_has_the_words()
    ensures dyck { (p : Program) (n : ℕ) → IsProgram p n → AreEqual (programs.Dyck p) (Reads Dyck (graph_of_program p)) }
    ensures stack { (p : Program) (n : ℕ) → IsProgram p n → AreEqual (programs.Stack p) (Reads Stack (graph_of_program p)) }
    ensures callgraph { (p : Program) (n : ℕ) → IsProgram p n → AreEqual (programs.Callgraph p) (Reads Callgraph (graph_of_program p)) }
{}

/// The law that the graph of a well-typed program is a valid model where it has at most 200,000 nodes. The
/// function does nothing.
pub fn program_graph_is_valid()
    ensures { (p : Program) (n : ℕ) → IsProgram p n → (graph_of_program p).nodes ≤ 200000 → IsValid (graph_of_program p) }
{}
