//! The calls that go over all nodes or all requests, for whoever is to be told each change that they make.
ghost use Rattle.std.specs.Prelude.{◌≡◌, true, Some};
ghost use Rattle.grid_types.specs.Calls.{Call, Reply};
ghost use Rattle.hub_core.specs.Replies.{swept_reply};
ghost use Rattle.hub_core.specs.Recorded.{ForSome, StandsHeld, RecordsCall};

use crate::answers::Swept;
use crate::hub::HubCore;
use crate::recorder::Recorder;
use crate::sweeping;
use grid_types::Moment;

impl HubCore {
    /// The same as `sweep`, and the recorder is told each change once it is made.
    pub fn sweep_by<R: Recorder>(&mut self, recorder: &mut R, at: Moment) -> Swept
        requires { R.asks ≡ true → ForSome R.Whose
            (λ whose H. StandsHeld self.old (R.holds recorder.old whose) H) }
        ensures { (whose : R.Whose) → RecordsCall self.old (R.holds recorder.old whose) self.new
            (R.holds recorder.new whose) (R.caller_of whose) Call.sweep at.0 (swept_reply result) }
    {
        sweeping::sweep(self, recorder, at)
    }

    /// The same as `clear`, and the recorder is told each change once it is made.
    pub fn clear_by<R: Recorder>(&mut self, recorder: &mut R, at: Moment) -> u32
        requires { R.asks ≡ true → ForSome R.Whose
            (λ whose H. StandsHeld self.old (R.holds recorder.old whose) H) }
        ensures { (whose : R.Whose) → RecordsCall self.old (R.holds recorder.old whose) self.new
            (R.holds recorder.new whose) (R.caller_of whose) Call.clear at.0
            (Some (Reply.cleared result)) }
    {
        sweeping::clear(self, recorder, at)
    }
}
