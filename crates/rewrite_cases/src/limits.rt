// How far a case is searched.

/// The size and the budget of a search.
#[derive(Clone, Copy)]
pub struct Limits {
    pub size: u32,
    pub budget: u64,
}

fn number_of(word: &str) -> u64 {
    word.parse::<u64>().unwrap_or(0)
}

/// The limits that a line of two numbers gives, which are 0 where there is no number.
pub fn limits_of(line: &str) -> Limits {
    let mut words = line.split(' ');
    let size = number_of(words.next().unwrap_or(""));
    let budget = number_of(words.next().unwrap_or(""));
    Limits {
        size: size.min(1_000_000) as u32,
        budget,
    }
}
