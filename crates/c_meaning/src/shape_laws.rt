ghost use Rattle.std.specs.Prelude.{◌≡◌, ◌↔◌, ◌++◌, ℕ, true, List, []};
ghost use Rattle.dm_base.specs.declared.event.Event.{Event};
ghost use Rattle.c_meaning.specs.Shape.{Shape, Shapes, Leave, goes_on, IsDone};
ghost use Rattle.c_meaning.specs.Bodies.{IsExpression, IsBody};
ghost use Rattle.c_meaning.specs.Words as words;
ghost use Rattle.c_meaning.specs.Words.{Marks};
ghost use Rattle.c_meaning.specs.ShapeTable as table;
ghost use Rattle.c_meaning.specs.Languages.{Dyck, Stack, Callgraph};
ghost use Rattle.c_meaning.specs.CallGraph.{is_in, same_type, reaching, reaches};
ghost use Rattle.c_tree.specs.Tree.{CType, Program};

/// The law that the words of a shape are those that the table joins from the words of its parts. The
/// function does nothing.
pub fn words_are_joined()
    ensures whole { (env : Shapes) (m : Marks) (s : Shape) (x : Leave) (t : List Event) → table.Whole env m s x t → words.Whole env m s x t [] }
    ensures joined_whole { (env : Shapes) (m : Marks) (s : Shape) (x : Leave) (t : List Event) → words.Whole env m s x t [] → table.Whole env m s x t }
    ensures front { (env : Shapes) (m : Marks) (s : Shape) (t : List Event) → table.Front env m s t → words.Front env m s t [] }
    ensures joined_front { (env : Shapes) (m : Marks) (s : Shape) (t : List Event) → words.Front env m s t [] → table.Front env m s t }
{}

/// The law that what is read through all of a shape is read from its start, that nothing may be read,
/// and that each language has with a word all its first parts. The function does nothing.
pub fn words_have_fronts()
    ensures nothing { (env : Shapes) (m : Marks) (s : Shape) → table.Front env m s [] }
    ensures whole { (env : Shapes) (m : Marks) (s : Shape) (x : Leave) (t : List Event) → table.Whole env m s x t → table.Front env m s t }
    ensures dyck { (env : Shapes) (t u : List Event) → Dyck env (t ++ u) → Dyck env t }
    ensures stack { (env : Shapes) (t u : List Event) → Stack env (t ++ u) → Stack env t }
    ensures callgraph { (env : Shapes) (t u : List Event) → Callgraph env (t ++ u) → Callgraph env t }
{}

/// The law that an expression is left at its end alone, and a function's body at its end or by a return.
/// So the table needs no row for a test or a step that is left elsewhere. The function does nothing.
pub fn exits_stay_inside()
    ensures expressions { (env : Shapes) (m : Marks) (s : Shape) (x : Leave) (t : List Event) → IsExpression s → table.Whole env m s x t → x ≡ goes_on }
    ensures bodies { (env : Shapes) (m : Marks) (s : Shape) (x : Leave) (t : List Event) → IsBody s → table.Whole env m s x t → IsDone x }
{}

/// The law that a word of the Dyck language is a word of the stack language, and that such a word is
/// one of the callgraph language. It holds for all shapes. The function does nothing.
pub fn languages_are_nested()
    ensures dyck { (env : Shapes) (t : List Event) → Dyck env t → Stack env t }
    ensures stack { (env : Shapes) (t : List Event) → Stack env t → Callgraph env t }
{}

/// The law on the call graph of a program: as many rounds as there are defined functions find each
/// function that some number of rounds finds, and the test of types tells whether they are the same. The
/// function does nothing.
pub fn rounds_are_enough()
    ensures rounds { (p : Program) (n f : ℕ) → is_in f (reaching p n) ≡ true → reaches p f ≡ true }
    ensures types { (t u : CType) → same_type t u ≡ true ↔ t ≡ u }
{}
