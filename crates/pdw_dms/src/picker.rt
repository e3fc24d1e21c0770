ghost use Rattle.std.specs.Prelude.{List, Option};
ghost use Rattle.pdw_dms.specs.Picker.{AddsCall};
ghost use Rattle.pdw_dms.specs.declared.picker.PickCall.{PickCall as Call};
ghost use Rattle.pdw_dms.specs.declared.picker.PickCall.TheVariants as calls;

/// A call of a picker.
#[derive(Clone, Copy, PartialEq, Eq)]
pub enum PickCall {
    Start(u64),
    Pick { count: u32, answer: u32 },
}

/// Who picks the events of transfers. Any answer is lawful.
pub trait Picker {
    /// The calls so far, where they are told.
    ghost told: { Self → Option (List Call) };

    /// Begins anew with this number.
    fn start(&mut self, k: u64)
        ensures { AddsCall (told self.old) (told self.new) (calls.Start k) };

    /// A number, which is taken modulo how many events there are.
    fn pick(&mut self, count: u32) -> u32
        ensures { AddsCall (told self.old) (told self.new) (calls.Pick count result) };
}
