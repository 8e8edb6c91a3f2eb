// Which statements a loop of the kernel form may hold.
ghost use Rattle.std.specs.Prelude.{◌≡◌};
ghost use Rattle.java_loops.specs.Kernel.KernelStatements as specs;
ghost use Rattle.lowering.specs.InCode.Reading.{setting_in_code};

use loop_setting::places::setting::Setting;
use loop_text::updates::shapes::broken_statement;
use qbs_base::Span;

/// K4: the first statement that the loop may not hold.
pub fn broken_statements(w: &Setting) -> Option<Span>
    ensures { result ≡ specs.broken_statements (setting_in_code w.now) }
{
    for (n, s) in w.sites.as_slice().iter().enumerate() {
        if let Some(at) = broken_statement(w.sites, n, s) {
            return Some(at);
        }
    }
    None
}
