//! What a message does to the node that receives it: a function for each body. What the message
//! carries is seen to first, by an errand, which is all that can fail. Then the body is followed.
//! Last of all the message counts.
ghost use Rattle.std.specs.Prelude.{◌≡◌, true};
ghost use Rattle.msg.specs.declared.body.Body.TheVariants as body;
ghost use Rattle.model.specs.View.{Performed, view_taken};
ghost use Rattle.node.specs.Errands.{Runs};
ghost use Rattle.node.specs.Taking.{IsTakable, followed};

use super::Core;
use super::errands::Extra;
use ids::{Ref, Refusal};
use msg::{Body, Frozen, Token};

impl Core {
    /// Receives a message that the node may receive, in its turn: all of that before the message
    /// counts.
    #[inline(always)]
    pub(super) fn receive(&mut self, from: u8, stamp: u64, body: &Body) -> Result<(), Refusal>
        requires { IsTakable self.old.local from stamp body.now }
        ensures { Runs result (followed from stamp body.now self.old.local) self.old self.new }
    {
        match *body {
            Body::Begin => self.receive_begin(from, stamp),
            Body::Token(token) => self.receive_token(from, stamp, token),
            Body::Mark { target } => self.receive_mark(from, stamp, target),
            Body::Give { label, reference } => self.receive_give(from, stamp, label, reference),
            Body::Put {
                target,
                place,
                reference,
            } => self.receive_put(from, stamp, target, place, reference),
            Body::Get {
                target,
                place,
                label,
            } => self.receive_get(from, stamp, target, place, label),
            Body::Post {
                label,
                ref references,
                ref bytes,
            } => self.receive_post(from, stamp, label, references, bytes),
            Body::Fetch {
                target,
                label,
                offset,
                count,
            } => self.receive_fetch(from, stamp, target, label, offset, count),
            Body::Ended => self.receive_ended(from, stamp),
            Body::Swept => self.receive_swept(from, stamp),
        }
    }

    /// Begin: the node has joined the cycle, and that is all.
    #[tactic(auto, using(crate::proofs::Receiving::following))]
    fn receive_begin(&mut self, from: u8, stamp: u64) -> Result<(), Refusal>
        requires { IsTakable self.old.local from stamp body.Begin }
        ensures { Runs result (followed from stamp body.Begin self.old.local) self.old self.new }
    {
        self.run(stamp, false, &[], Extra::Nothing)
    }

    /// The token: it is held.
    #[inline(always)]
    #[tactic(auto, using(crate::proofs::Receiving::following))]
    fn receive_token(&mut self, from: u8, stamp: u64, token: Token) -> Result<(), Refusal>
        requires { IsTakable self.old.local from stamp (body.Token token) }
        ensures { Runs result (followed from stamp (body.Token token) self.old.local) self.old
            self.new }
    {
        self.run(stamp, false, &[], Extra::Nothing)?;
        self.hold(token);
        Ok(())
    }

    /// A Mark: its object is shaded.
    #[tactic(auto, using(crate::proofs::Receiving::following))]
    fn receive_mark(&mut self, from: u8, stamp: u64, target: Ref) -> Result<(), Refusal>
        requires { IsTakable self.old.local from stamp (body.Mark target) }
        ensures { Runs result (followed from stamp (body.Mark target) self.old.local) self.old
            self.new }
    {
        self.run(stamp, true, &[Some(target)], Extra::Nothing)
    }

    /// A Give: its reference is seen to, and a letter with it is added.
    #[tactic(auto, using(crate::proofs::Receiving::following))]
    fn receive_give(
        &mut self,
        from: u8,
        stamp: u64,
        label: u32,
        reference: Option<Ref>,
    ) -> Result<(), Refusal>
        requires { IsTakable self.old.local from stamp (body.Give label reference) }
        ensures { Runs result (followed from stamp (body.Give label reference) self.old.local)
            self.old self.new }
    {
        let due = self.is_late(stamp);
        let letter = Extra::Letter {
            from,
            label,
            reference,
        };
        self.run(stamp, due, &[reference], letter)
    }

    /// A Put: its object and its reference are seen to, and the object's place gets the reference.
    #[tactic(auto, using(crate::proofs::Receiving::following))]
    fn receive_put(
        &mut self,
        from: u8,
        stamp: u64,
        target: Ref,
        place: u8,
        reference: Option<Ref>,
    ) -> Result<(), Refusal>
        requires { IsTakable self.old.local from stamp (body.Put target place reference) }
        ensures { Runs result
            (followed from stamp (body.Put target place reference) self.old.local) self.old
            self.new }
    {
        let due = self.is_late(stamp);
        self.run(stamp, due, &[Some(target), reference], Extra::Nothing)?;
        self.put_place(target, place, reference);
        Ok(())
    }

    /// A Get: its object and what the object's place holds are shaded. The latter is sent back, and
    /// becomes shared.
    #[tactic(auto, using(crate::proofs::Receiving::following))]
    fn receive_get(
        &mut self,
        from: u8,
        stamp: u64,
        target: Ref,
        place: u8,
        label: u32,
    ) -> Result<(), Refusal>
        requires { IsTakable self.old.local from stamp (body.Get target place label) }
        ensures { Runs result (followed from stamp (body.Get target place label) self.old.local)
            self.old self.new }
    {
        let reference = self.place(target, place);
        let answer = Extra::Answer {
            to: from,
            label,
            reference,
        };
        self.run(stamp, true, &[Some(target), reference], answer)?;
        self.share(reference);
        Ok(())
    }

    /// A Post: its references are seen to, and a letter with them and its bytes is added.
    #[inline(never)]
    #[tactic(auto, using(crate::proofs::Receiving::following))]
    fn receive_post(
        &mut self,
        from: u8,
        stamp: u64,
        label: u32,
        references: &Frozen<Option<Ref>>,
        bytes: &Frozen<u8>,
    ) -> Result<(), Refusal>
        requires { IsTakable self.old.local from stamp
            (body.Post label references.now bytes.now) }
        ensures { Runs result
            (followed from stamp (body.Post label references.now bytes.now) self.old.local)
            self.old self.new }
    {
        let due = self.is_late(stamp);
        let references = references.as_slice();
        let letter = Extra::Letters {
            from,
            label,
            references,
            bytes,
        };
        self.run(stamp, due, references, letter)
    }

    /// A Fetch: its object is seen to. The object's word and a range of its bytes are sent back.
    #[inline(never)]
    #[tactic(auto, using(crate::proofs::Receiving::following))]
    fn receive_fetch(
        &mut self,
        from: u8,
        stamp: u64,
        target: Ref,
        label: u32,
        offset: u32,
        count: u32,
    ) -> Result<(), Refusal>
        requires { IsTakable self.old.local from stamp (body.Fetch target label offset count) }
        ensures { Runs result
            (followed from stamp (body.Fetch target label offset count) self.old.local) self.old
            self.new }
    {
        let due = self.is_late(stamp);
        let bytes = self.fetched(target, offset, count)?;
        let answer = Extra::Report {
            to: from,
            label,
            bytes: &bytes,
        };
        self.run(stamp, due, &[Some(target)], answer)
    }

    /// Ended: the node knows that marking has ended.
    #[tactic(auto, using(crate::proofs::Receiving::following))]
    fn receive_ended(&mut self, from: u8, stamp: u64) -> Result<(), Refusal>
        requires { IsTakable self.old.local from stamp body.Ended }
        ensures { Runs result (followed from stamp body.Ended self.old.local) self.old self.new }
    {
        self.run(stamp, false, &[], Extra::Nothing)?;
        self.end_marking();
        Ok(())
    }

    /// Swept: node 0 notes that the sender has swept.
    #[tactic(auto, using(crate::proofs::Receiving::following))]
    fn receive_swept(&mut self, from: u8, stamp: u64) -> Result<(), Refusal>
        requires { IsTakable self.old.local from stamp body.Swept }
        ensures { Runs result (followed from stamp body.Swept self.old.local) self.old self.new }
    {
        self.run(stamp, false, &[], Extra::Nothing)?;
        self.note_swept(from, stamp);
        Ok(())
    }
}
