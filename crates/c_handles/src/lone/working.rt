//! The collector's share of a node's turn.
ghost use Rattle.std.specs.Prelude.{◌≡◌, ◌<◌, ◌≤◌, ◌+◌, ◌*◌, ◌^◌};
ghost use Rattle.ids.specs.declared.limits.TheConstants.{WINDOW};
ghost use Rattle.c_handles.specs.Work.{NodeDoes, NodeWorks, Plays, Scans, at, node_plan};
ghost use Rattle.c_handles.specs.Work.{node_turns, tried, turn_of};

use super::LoneNode;
use crate::working::{Task, Worked, collect, is_left, repeat};
use c_values::{CWork, Fault};
use ids::WINDOW;
use model::{Answer, Event};
use node::Summary;

impl Worked for LoneNode {
    ghost does = { NodeDoes };

    #[inline(always)]
    fn attempt(&mut self, task: Task) -> Result<Answer, Fault> {
        self.perform(task.event())
    }

    #[inline(always)]
    fn scan(&mut self) -> Result<(), Fault> {
        self.scan_one()
    }
}

impl LoneNode {
    // Scans an object. For most objects no answer is made.
    #[inline(always)]
    fn scan_one(&mut self) -> Result<(), Fault>
        ensures { Scans NodeDoes self.old self.new result }
    {
        if !self.logged.scan_own() {
            return self.scan_any();
        }
        self.mark_changed(true);
        Ok(())
    }

    // The same, whatever the object.
    #[inline(never)]
    fn scan_any(&mut self) -> Result<(), Fault>
        ensures { Scans NodeDoes self.old self.new result }
    {
        match self.perform(Event::Scan) {
            Ok(_) => Ok(()),
            Err(fault) => Err(fault),
        }
    }

    // Receives the early messages from another node whose turn has come.
    fn receive_from(&mut self, own: u8, from: u8, work: &mut CWork) -> Result<(), Fault>
        requires { tried work.old + WINDOW < 2 ^ 64 }
        ensures done { Plays NodeDoes (turn_of own from) (at self.old work.old)
            (at self.new work.new) result }
        ensures few { tried work.new ≤ tried work.old + WINDOW }
    {
        if from == own {
            return Ok(());
        }
        repeat(self, Task::Receive { from }, u32::from(WINDOW), work)
    }

    // The same from each other node, ascending.
    fn receive_early(&mut self, work: &mut CWork) -> Result<(), Fault>
        requires { tried work.old < 2 ^ 32 }
        ensures done { Plays NodeDoes (node_turns self.old) (at self.old work.old)
            (at self.new work.new) result }
        ensures few { tried work.new ≤ tried work.old + 255 * WINDOW }
    {
        let Summary { shape, own, .. } = self.logged.node.state();
        for from in 0..shape.nodes() {
            self.receive_from(own, from, work)?;
        }
        Ok(())
    }

    // Receives early messages, and then collects.
    fn work_through(&mut self, scans: u32, slots: u32, work: &mut CWork) -> Result<(), Fault>
        requires { tried work.old < 2 ^ 32 }
        ensures { Plays NodeDoes (node_plan scans slots self.old) (at self.old work.old)
            (at self.new work.new) result }
    {
        self.receive_early(work)?;
        collect(self, scans, slots, work)
    }

    /// Does the collector's share of a turn, and says what it did. It receives the early messages
    /// whose turn has come, scans at most `scans` objects, passes the token, and sweeps `slots`
    /// slots. A fault other than `NothingToDo` ends it, after what was done before.
    pub fn work(&mut self, scans: u32, slots: u32, work: &mut CWork) -> Result<(), Fault>
        ensures { NodeWorks scans slots self.old self.new work.new result }
    {
        *work = CWork::NONE;
        let ended = self.work_through(scans, slots, work);
        work.more = u8::from(is_left(self.logged.node.state()));
        ended
    }
}
