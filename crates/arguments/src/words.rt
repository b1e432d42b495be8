//! The words behind a program's name, one after the other.
ghost use Rattle.std.specs.Prelude.{◌≤◌, IfSome};

use crate::refusal::Refusal;
use plain_lines::Size;
use std::env;
use std::vec::IntoIter;

#[derive(Drop)]
pub struct Words {
    rest: IntoIter<String>,
    usage: &'static str,
}

impl Words {
    pub fn new(words: Vec<String>, usage: &'static str) -> Words {
        Words {
            rest: words.into_iter(),
            usage,
        }
    }

    // Those of the command line, without the program's name.
    pub fn of_program(rt: &HostRuntime, usage: &'static str) -> Result<Words, Refusal> {
        let mut args = env::args(rt).map_err(|_| Refusal::Usage(usage))?;
        let _program = args.next();
        let words = args.collect(rt.alloc())?;
        Ok(Words::new(words, usage))
    }

    pub fn take(&mut self) -> Result<String, Refusal> {
        self.rest.next().ok_or(Refusal::Usage(self.usage))
    }

    // There must be no more.
    pub fn end(&mut self) -> Result<(), Refusal> {
        match self.rest.next() {
            Some(_) => Err(Refusal::Usage(self.usage)),
            None => Ok(()),
        }
    }
}

fn number(word: &str, least: usize) -> Option<usize>
    ensures { IfSome result (λ n. (least ≤ n) × (n ≤ 9999)) }
{
    let number = word.parse::<usize>().ok()?;
    Some(number).filter(|n| (least..=Size::MOST).contains(n))
}

// Rows and columns of a screen.
pub fn screen_size(rows: &str, columns: &str) -> Result<Size, Refusal> {
    let rows = number(rows, 2).ok_or(Refusal::Rows)?;
    let columns = number(columns, 1).ok_or(Refusal::Columns)?;
    Ok(Size::new(rows, columns).unwrap())
}
