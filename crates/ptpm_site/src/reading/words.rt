//! Texts of lines, such as addresses, by numbers.

use std::alloc::{AllocError, Global};
use std::collections::BTreeMap;

/// Texts, each with a number. Two texts have one number exactly if they are alike.
#[derive(Drop)]
pub struct Words {
    numbers: BTreeMap<String, usize>,
}

impl Words {
    pub fn new(alloc: Global) -> Words {
        Words {
            numbers: BTreeMap::new(alloc),
        }
    }

    /// The number of a text, which is kept.
    pub fn number_of(&mut self, alloc: Global, text: &str) -> Result<usize, AllocError> {
        let text = String::from_str(alloc, text)?;
        if let Some(number) = self.numbers.get(&text) {
            return Ok(*number);
        }
        let number = self.numbers.len();
        let _ = self.numbers.insert(text, number)?;
        Ok(number)
    }

    /// For each number the place of its text in the order of all texts.
    pub fn places(&self, alloc: Global) -> Result<Vec<usize>, AllocError> {
        let mut places = vec![in alloc; 0; self.numbers.len()]?;
        for (place, number) in self.numbers.values().enumerate() {
            if let Some(kept) = places.get_mut(*number) {
                *kept = place;
            }
        }
        Ok(places)
    }

    /// The text of a number, or an empty one if no text has it.
    pub fn text(&self, number: usize) -> &str {
        for (text, its_number) in self.numbers.iter() {
            if *its_number == number {
                return text.as_str();
            }
        }
        ""
    }
}
