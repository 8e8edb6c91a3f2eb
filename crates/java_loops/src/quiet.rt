//! Laws of loops that print nothing and return nothing. They do nothing.
ghost use Rattle.std.specs.Prelude.{◌≡◌, true, List, Ok};
ghost use Rattle.java_ast.specs.Tree.{Statement, Statements};
ghost use Rattle.java_mean.specs.Statement.{State, Passed, meaning};
ghost use Rattle.java_mean.specs.Types.{Types};
ghost use Rattle.java_mean.specs.Typing.{Frame};
ghost use Rattle.java_mean.specs.World.{World};
ghost use Rattle.java_loops.specs.Walks.Reads.{Set};
ghost use Rattle.java_loops.specs.Walks.Replacing.{Ask, MayGiveWay};
ghost use Rattle.java_loops.specs.Walks.Quiet.{is_quiet, IsLoop, GoesQuietly, TextGivesWay};

/// A loop in which nothing is printed or returned passes by going on, with the same lines and no more turns. So
/// what its text says, and that it answers what is asked where it goes on, is enough for it to give way.
pub fn quiet_loops_go_on()
    ensures go { (w : World) (loop_statement : Statement) (s : State) (q : Passed)
        → IsLoop loop_statement
        → is_quiet loop_statement ≡ true
        → meaning loop_statement w s ≡ Ok q
        → GoesQuietly s q }
    ensures by_text { (c : Frame) (g m : Types) (run : Statements) (loop_statement : Statement) (r : Set) (ks : List Ask)
        → TextGivesWay c g m run loop_statement r ks
        → MayGiveWay c g m run loop_statement r ks }
{}
