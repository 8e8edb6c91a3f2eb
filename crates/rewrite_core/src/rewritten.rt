// What comes of a program whose loops were tried.
use deriv_check::Bundle;
use java_ast::Program;
use java_stretches::Patches;
use qbs_base::Bytes;
use verdicts::Verdicts;

/// The program after all tries, what is said of each loop in the order of the tries, an entry with its derivations for each loop that
/// gave way, how many candidates were dropped in all, the patches of the source, in its order, and the output: the source with these in place.
///
/// A patch has the path of a loop that gave way, in the program as it stood then, and the statements that came in its place. One that is
/// covered by a later one, as that loop's run held what stood in it, isn't there.
#[derive(Drop)]
pub struct Rewritten {
    pub program: Program,
    pub verdicts: Verdicts,
    pub bundle: Bundle,
    pub dropped: u64,
    pub patches: Patches,
    pub text: Bytes,
}
