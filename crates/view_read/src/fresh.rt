// Names that neither the method nor the map has.
use crate::reader::{Method, Reader};
use qbs_base::{Bytes, NoMemory, is_digit};
use std::alloc::Global;
use view_map::{Part, PatternItem};

/// The number that decimal digits are, without a zero before them: none where it is 1 or less.
fn number_of(digits: &[u8]) -> Option<usize> {
    let mut number: usize = 0;
    for digit in digits {
        if !is_digit(*digit) || number == 0 && *digit == b'0' {
            return None;
        }
        number = number
            .checked_mul(10)?
            .checked_add(digit.saturating_sub(b'0') as usize)?;
    }
    if number > 1 { Some(number) } else { None }
}

/// The number behind a name, 1 where there is none.
fn number_behind(name: &[u8], bytes: &[u8]) -> Option<usize> {
    let rest = bytes.strip_prefix(name)?;
    if rest.is_empty() {
        Some(1)
    } else {
        number_of(rest)
    }
}

/// The numbers that stand behind a name where it is taken.
#[derive(Drop)]
struct Taken<'a> {
    name: &'a [u8],
    numbers: Vec<usize>,
}

impl<'a> Taken<'a> {
    fn take(&mut self, bytes: &[u8]) -> Result<(), NoMemory> {
        if let Some(number) = number_behind(self.name, bytes) {
            self.numbers.push(number)?;
        }
        Ok(())
    }

    fn take_pattern(&mut self, items: &[PatternItem]) -> Result<(), NoMemory> {
        for item in items {
            self.take(item.bytes.as_slice())?;
        }
        Ok(())
    }

    fn take_parts(&mut self, parts: &[Part]) -> Result<(), NoMemory> {
        for part in parts {
            if let Part::Item(item) = part {
                self.take(item.bytes.as_slice())?;
            }
        }
        Ok(())
    }

    fn take_map(&mut self, method: Method) -> Result<(), NoMemory> {
        for f in method.map.fetches.as_slice() {
            self.take_pattern(f.items.as_slice())?;
        }
        for t in method.map.templates.as_slice() {
            self.take_parts(t.front.as_slice())?;
            self.take_parts(t.each.as_slice())?;
            self.take_parts(t.back.as_slice())?;
        }
        Ok(())
    }

    fn take_method(&mut self, method: Method) -> Result<(), NoMemory> {
        let count = method.end.saturating_sub(method.name);
        for item in method.items.iter().skip(method.name).take(count) {
            self.take(item.bytes.as_slice())?;
        }
        Ok(())
    }

    /// The least number from 1 on that isn't taken.
    fn least(&self, alloc: Global) -> Result<usize, NoMemory> {
        let mut free: Vec<bool> = Vec::new(alloc);
        for _ in 0..self.numbers.len() {
            free.push(true)?;
        }
        for number in self.numbers.as_slice() {
            if let Some(slot) = free.get_mut(number.saturating_sub(1)) {
                *slot = false;
            }
        }
        match free.iter().position(|slot| *slot) {
            Some(place) => Ok(place.saturating_add(1)),
            None => Ok(self.numbers.len().saturating_add(1)),
        }
    }
}

fn put_number(name: &mut Vec<u8>, number: usize) -> Result<(), NoMemory> {
    if number >= 10 {
        put_number(name, number / 10)?;
    }
    name.push(b'0' + (number % 10) as u8)?;
    Ok(())
}

/// The name with a number behind it, without one for 1.
fn numbered(alloc: Global, name: &[u8], number: usize) -> Result<Bytes, NoMemory> {
    let mut bytes = name.to_vec(alloc)?;
    if number > 1 {
        put_number(&mut bytes, number)?;
    }
    Ok(Bytes::from_vec(bytes))
}

impl<'a> Reader<'a> {
    /// A name that neither the method, nor a pattern or template of the map, nor a parameter has: this one, or with the least number behind it,
    /// from 2 on. Time goes with the items of the method and the map.
    pub fn fresh_name(&self, name: &[u8]) -> Result<Bytes, NoMemory> {
        let mut taken = Taken {
            name,
            numbers: Vec::new(self.alloc),
        };
        taken.take_method(self.method)?;
        taken.take_map(self.method)?;
        for p in self.params.as_slice() {
            taken.take(p.name.as_slice())?;
        }
        let number = taken.least(self.alloc)?;
        numbered(self.alloc, name, number)
    }
}
