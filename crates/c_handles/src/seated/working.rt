//! The collector's share of a cell's turn.
ghost use Rattle.std.specs.Prelude.{◌≡◌, ◌<◌, ◌≤◌, ◌+◌, ◌^◌};
ghost use Rattle.c_handles.specs.Work.{CellDoes, CellWorks};

use super::SeatedCell;
use crate::working::{Task, Worked, collect, is_left};
use c_values::{CWork, Fault};
use model::{Answer, Event};

impl Worked for SeatedCell {
    ghost does = { CellDoes };

    #[inline(always)]
    fn attempt(&mut self, task: Task) -> Result<Answer, Fault> {
        self.act(task.event())
    }

    #[inline(always)]
    fn scan(&mut self) -> Result<(), Fault> {
        match self.act(Event::Scan) {
            Ok(_) => Ok(()),
            Err(fault) => Err(fault),
        }
    }
}

impl SeatedCell {
    /// Does the collector's share of a turn, and says what it did. It scans at most `scans`
    /// objects, passes the token, and sweeps `slots` slots. A fault other than `NothingToDo` ends
    /// it, after what was done before. It receives nothing.
    pub fn work(&mut self, scans: u32, slots: u32, work: &mut CWork) -> Result<(), Fault>
        ensures { CellWorks scans slots self.old self.new work.new result }
    {
        *work = CWork::NONE;
        let ended = collect(self, scans, slots, work);
        work.more = u8::from(is_left(self.cell.node().state()));
        ended
    }
}
