// A test: the input values that were applied, and at each output the value measured there, if one was.
ghost use Rattle.std.specs.Prelude.{◌≡◌, is_ok, is_some, if◌then◌else◌, IfErr, Some};
ghost use Rattle.test_format.specs.Amending.{output_of, with_reading};
ghost use Rattle.testlog.specs.Held.{test_of};

use crate::fault::RecordFault;
use inline_list::InlineList;

#[derive(Clone, Copy)]
pub struct Test {
    pub(crate) inputs: InlineList<bool, 64>,
    pub(crate) outputs: InlineList<Option<bool>, 64>,
}

impl Test {
    // The value of each input, in order.
    pub fn inputs(&self) -> &[bool]
        ensures { result.now ≡ (test_of self.now).inputs }
    {
        self.inputs.as_slice()
    }

    // At each output, in order, the value measured there, if one was.
    pub fn outputs(&self) -> &[Option<bool>]
        ensures { result.now ≡ (test_of self.now).outputs }
    {
        self.outputs.as_slice()
    }

    // Puts a reading at the output of this number, from 1; refused where there is no such output.
    pub(crate) fn amend(&mut self, output: usize, reading: Option<bool>) -> Result<(), RecordFault>
        ensures taken { is_ok result ≡ is_some (output_of (Some (test_of self.old)) output) }
        ensures refused { IfErr result (λ fault. fault ≡ RecordFault.Amendment) }
        ensures after { test_of self.new ≡ (if is_ok result then with_reading (test_of self.old) output reading else test_of self.old) }
    {
        let at = output.checked_sub(1).ok_or(RecordFault::Amendment)?;
        match self.outputs.replace(at, reading) {
            Some(_) => Ok(()),
            None => Err(RecordFault::Amendment),
        }
    }
}
