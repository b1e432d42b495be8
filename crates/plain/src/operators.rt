//! What operators do with what they take.
ghost use Rattle.std.specs.Prelude.{◌≡◌, ◌≤◌, vec_len, IfSome};

use crate::editor::{Editor, Register};
use plain_keys::{Extent, Operator, Shape};
use std::alloc::AllocError;

// Kept: `extent.to` within the text is in four contracts: a type for it would borrow the text, which these functions change.
impl Editor {
    // Where a motion can't be done there is nothing that is taken.
    pub(crate) fn operate(
        &mut self,
        operator: Operator,
        taken: Option<Extent>,
    ) -> Result<(), AllocError>
        requires { IfSome taken (λ e. e.to ≤ vec_len self.old.buffer.text) }
    {
        let Some(extent) = taken else {
            return Ok(());
        };
        // The order of the arms matters: changing no bytes begins to insert, and else no bytes do nothing.
        match (operator, extent.shape) {
            // the cursor stays
            (Operator::Yank, Shape::Lines) => self.keep(extent),
            (Operator::Delete, Shape::Lines) => self.delete_lines(extent),
            (Operator::Change, _) => {
                self.cut(extent)?;
                self.insert_at(extent.from);
                Ok(())
            }
            (_, Shape::Bytes) if extent.is_empty() => Ok(()),
            (Operator::Yank, Shape::Bytes) => {
                self.keep(extent)?;
                self.stand(extent.from);
                Ok(())
            }
            (Operator::Delete, Shape::Bytes) => {
                self.cut(extent)?;
                self.stand(extent.from);
                Ok(())
            }
        }
    }

    // Keeps a part of the text in the register.
    fn keep(&mut self, extent: Extent) -> Result<(), AllocError>
        requires { extent.to ≤ vec_len self.old.buffer.text }
        ensures { vec_len self.new.buffer.text ≡ vec_len self.old.buffer.text }
    {
        let Extent { from, to, shape } = extent;
        let bytes = Vec::from_slice(self.heap, &self.buffer.here().text[from..to])?;
        self.register = Register { bytes, shape };
        Ok(())
    }

    // Takes a part of the text away, into the register, if it has any bytes.
    fn cut(&mut self, extent: Extent) -> Result<(), AllocError>
        requires { extent.to ≤ vec_len self.old.buffer.text }
    {
        if extent.is_empty() {
            return Ok(());
        }
        self.keep(extent)?;
        self.replace(extent.from, extent.to, b"")
    }

    // With the last line the line end before the first one goes. A text with no byte has one line,
    // an empty one, which is kept like any other.
    fn delete_lines(&mut self, extent: Extent) -> Result<(), AllocError>
        requires { extent.to ≤ vec_len self.old.buffer.text }
    {
        let mut from = extent.from;
        let mut to = extent.to;
        if to < self.buffer.here().text.len() {
            to += 1;
        } else if from > 0 {
            from -= 1;
        }
        self.keep(extent)?;
        self.replace(from, to, b"")?;
        self.stand_on_nonblank(from);
        Ok(())
    }
}
