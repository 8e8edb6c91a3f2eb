//! What the tests round a place ask.
ghost use Rattle.std.specs.Prelude.{◌≡◌};
ghost use Rattle.std.specs.Option.{option_map};
ghost use Rattle.loop_places.specs.Asks as specs;
ghost use Rattle.loop_text.specs.Sites.Reading.{test_of};

use java_ast::Expr;
use loop_text::sites::list::Test;

/// What an `if` asks of a place: its number among the sites, its condition, and whether that has to hold or to fail.
#[derive(Clone, Copy)]
pub struct Asks<'a> {
    pub number: usize,
    pub holds: bool,
    pub condition: &'a Expr,
}

/// What a test asks at this level; none, where it stands at another one.
pub fn asked_at<'a>(t: &Test<'a>, level: usize) -> Option<Asks<'a>>
    ensures { option_map specs.asks_of result ≡ specs.asked_at (test_of t.now) level }
{
    if t.level != level {
        return None;
    }
    Some(Asks {
        number: t.number,
        holds: t.holds,
        condition: t.condition,
    })
}
