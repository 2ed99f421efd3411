//! A text in which a running number stands.

use crate::escapes::push_unescaped;
use anyhow::Result;
use itoa::Buffer;
use std::alloc::Global;

/// The number `add + times * i % modulus` for a running number i. With the modulus 0 nothing is divided.
#[derive(Clone, Copy)]
struct Formula {
    add: u64,
    times: u64,
    modulus: u64,
}

impl Formula {
    // Reads `A+B*i%M`, in which `A+`, `B*` and `%M` may be left out.
    fn parse(text: &str) -> Option<Formula> {
        let (sum, modulus) = match text.split_once('%') {
            Some((sum, modulus)) => (sum, modulus.parse().ok()?),
            None => (text, 0),
        };
        let (add, product) = match sum.split_once('+') {
            Some((add, product)) => (add.parse().ok()?, product),
            None => (0, sum),
        };
        let (times, variable) = match product.split_once('*') {
            Some((times, variable)) => (times.parse().ok()?, variable),
            None => (1, product),
        };
        if variable != "i" {
            return None;
        }
        Some(Formula {
            add,
            times,
            modulus,
        })
    }

    fn value(&self, i: u64) -> u64 {
        let product = self.times.saturating_mul(i);
        let rest = product.checked_rem(self.modulus).unwrap_or(product);
        self.add.saturating_add(rest)
    }
}

#[derive(Drop)]
enum Part {
    Text(Vec<u8>),
    Number(Formula),
}

/// A text in whose places `{..}` numbers stand.
#[derive(Drop)]
pub struct Template {
    parts: Vec<Part>,
}

impl Template {
    fn push_text(&mut self, alloc: Global, text: &str) -> Result<()> {
        let mut bytes = Vec::new(alloc);
        push_unescaped(text, &mut bytes)?;
        self.parts.push(Part::Text(bytes))?;
        Ok(())
    }

    // Appends what stands behind a `{`, which is a formula up to its `}`, or a text as any other.
    fn push_piece(&mut self, alloc: Global, piece: &str) -> Result<()> {
        if let Some((inner, rest)) = piece.split_once('}') {
            if let Some(formula) = Formula::parse(inner) {
                self.parts.push(Part::Number(formula))?;
                return self.push_text(alloc, rest);
            }
        }
        self.push_text(alloc, "{")?;
        self.push_text(alloc, piece)
    }

    pub fn parse(alloc: Global, text: &str) -> Result<Template> {
        let mut template = Template {
            parts: Vec::new(alloc),
        };
        let mut pieces = text.split('{');
        template.push_text(alloc, pieces.next().unwrap_or(""))?;
        for piece in pieces {
            template.push_piece(alloc, piece)?;
        }
        Ok(template)
    }

    /// Appends the text for a running number.
    pub fn push(&self, i: u64, into: &mut Vec<u8>) -> Result<()> {
        for part in self.parts.as_slice() {
            match part {
                Part::Text(bytes) => into.extend_from_slice(bytes)?,
                Part::Number(formula) => {
                    let mut digits = Buffer::new();
                    into.extend_from_slice(digits.format(formula.value(i)).as_bytes())?;
                }
            }
        }
        Ok(())
    }
}
