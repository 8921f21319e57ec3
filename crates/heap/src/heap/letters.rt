//! Letters that wait for the program, oldest first. A letter with several references waits as
//! several, one for each. Room for a letter is made before its message is received, so adding it
//! can't fail.
ghost use Rattle.std.specs.Prelude.{◌≡◌, ◌+◌, ◌-◌, ◌^◌, ◌<◌, ◌≤◌, length, Ok, Err, OnErr, IfOk, IfErr};
ghost use Rattle.ids.specs.declared.limits.TheConstants.{GREATEST_PLACES};
ghost use Rattle.model.specs.Checks.{guarded};
ghost use Rattle.model.specs.Heaps.{with_letter, with_letters, more_letters, letters_of, heap_accept};
ghost use Rattle.model.specs.Heaps.{heap_letter, heap_letter_bytes, heap_letter_part};
ghost use Rattle.model.specs.Heaps.{letter_taken, letters_taken, told_of};
ghost use Rattle.heap.specs.Heap.{KeepsRoom, entries};
ghost use Rattle.heap.specs.Tests.{letter_tests};

use super::Heap;
use ids::{Ref, Refusal};
use model::{Accepted, Letter};
use msg::Frozen;

impl Heap {
    /// Removes the oldest letter. The register and those that follow it then hold the letter's
    /// references. If the letter has none, the register is empty.
    ///
    /// It fails with [`Refusal::NoRegister`] if there is no such register, with
    /// [`Refusal::NoLetter`] if no letter waits, and with [`Refusal::NoRegister`] if there are
    /// fewer registers than the letter's references need. The heap is then as it was.
    #[tactic(auto, unfolding(model::specs::Heaps::heap_accept))]
    pub fn take_letter(&mut self, register: u16) -> Result<Accepted, Refusal>
        ensures done { IfOk result
            (λ l. heap_accept self.old.heap register ≡ Ok (self.new.heap, l)) }
        ensures limit { self.new.limit ≡ self.old.limit }
        ensures room { KeepsRoom self.old self.new }

        ensures refused { IfErr result (λ e. heap_accept self.old.heap register ≡ Err e) }
        ensures unchanged { OnErr result (self.new ≡ self.old) }
    {
        if register as usize >= self.registers.len() {
            return Err(Refusal::NoRegister);
        }
        match self.letters.front() {
            None => return Err(Refusal::NoLetter),
            Some(letter) => {
                if letter.more > 0 {
                    // (A variable of its own, so that no other answer goes through memory.)
                    let taken = self.take_parts(register);
                    return taken;
                }
            }
        }
        // (Read as it leaves, since that takes fewer instructions.)
        let Some(letter) = self.letters.pop_front() else {
            return Err(Refusal::NoLetter);
        };
        self.registers[register as usize] = letter.reference;
        Ok(told_of(&letter))
    }

    // The same for a letter of any number of references.
    #[cold]
    #[inline(never)]
    #[tactic(auto, unfolding(model::specs::Heaps::heap_accept))]
    fn take_parts(&mut self, register: u16) -> Result<Accepted, Refusal>
        ensures done { IfOk result
            (λ l. heap_accept self.old.heap register ≡ Ok (self.new.heap, l)) }
        ensures limit { self.new.limit ≡ self.old.limit }
        ensures room { KeepsRoom self.old self.new }

        ensures refused { IfErr result (λ e. heap_accept self.old.heap register ≡ Err e) }
        ensures unchanged { OnErr result (self.new ≡ self.old) }
    {
        if register as usize >= self.registers.len() {
            return Err(Refusal::NoRegister);
        }
        let Some(letter) = self.letters.front() else {
            return Err(Refusal::NoLetter);
        };
        let (told, more) = (told_of(letter), letter.more);
        self.check_letter(register, more)?;
        self.take_one(register as usize);
        self.take_some(register as usize + 1, more);
        Ok(told)
    }

    /// Adds a letter behind those that wait. It allocates nothing: the room was made by
    /// [`Heap::make_room`].
    #[inline(always)]
    pub fn add_letter(&mut self, letter: Letter)
        requires { 0 < self.old.letter_room }
        ensures { self.new ≡ record self.old {
          heap = with_letter self.old.heap letter;
          letter_room = self.old.letter_room - 1;
        } }
    {
        self.letters.push_back_reserved(letter);
    }

    /// Adds a letter with these references and bytes behind those that wait. It takes room for as
    /// many letters as it has references, and for one if it has none. It allocates nothing: the
    /// room was made by [`Heap::make_room`].
    #[inline(never)]
    pub fn add_letters(
        &mut self,
        from: u8,
        label: u32,
        references: &[Option<Ref>],
        bytes: Frozen<u8>,
    )
        requires few { length references.now ≤ GREATEST_PLACES }
        requires room { entries references.now ≤ self.old.letter_room }
        ensures { self.new ≡ record self.old {
          heap = with_letters self.old.heap (letters_of from label references.now bytes);
          letter_room = self.old.letter_room - entries references.now;
        } }
    {
        match references.split_first() {
            Some((first, rest)) => {
                self.add_letter(Letter {
                    from,
                    label,
                    reference: *first,
                    more: rest.len() as u8,
                    bytes,
                });
                self.add_more(from, label, rest);
            }
            None => self.add_letter(Letter {
                from,
                label,
                reference: None,
                more: 0,
                bytes,
            }),
        }
    }

    // Adds the references of a letter after its first one.
    fn add_more(&mut self, from: u8, label: u32, references: &[Option<Ref>])
        requires few { length references.now < GREATEST_PLACES }
        requires room { length references.now ≤ self.old.letter_room }
        ensures { self.new ≡ record self.old {
          heap = with_letters self.old.heap (more_letters from label references.now);
          letter_room = self.old.letter_room - length references.now;
        } }
    {
        let mut more = references.len();
        for reference in references {
            more -= 1;
            self.add_letter(Letter {
                from,
                label,
                reference: *reference,
                more: more as u8,
                bytes: Frozen::empty(),
            });
        }
    }

    /// The number of letters that wait. One with several references counts once for each.
    pub fn letters(&self) -> usize
        ensures { result ≡ length self.now.heap.letters }
    {
        self.letters.len()
    }

    /// What the program is told when it accepts the oldest letter. It fails with
    /// [`Refusal::NoLetter`] if no letter waits.
    #[tactic(auto, unfolding(model::specs::Heaps::heap_letter))]
    pub fn oldest_letter(&self) -> Result<Accepted, Refusal>
        ensures { result ≡ heap_letter self.now.heap }
    {
        match self.letters.front() {
            Some(letter) => Ok(told_of(letter)),
            None => Err(Refusal::NoLetter),
        }
    }

    /// The bytes of the oldest letter. It fails with [`Refusal::NoLetter`] if no letter waits.
    #[tactic(auto, unfolding(model::specs::Heaps::heap_letter_bytes))]
    pub fn letter_bytes(&self) -> Result<&[u8], Refusal>
        ensures value { IfOk result (λ b. heap_letter_bytes self.now.heap ≡ Ok b.now) }
        ensures refused { IfErr result (λ e. heap_letter_bytes self.now.heap ≡ Err e) }
    {
        match self.letters.front() {
            Some(letter) => Ok(letter.bytes.as_slice()),
            None => Err(Refusal::NoLetter),
        }
    }

    /// The first bytes of the oldest letter, this many of them. It fails with
    /// [`Refusal::NoLetter`] if no letter waits, and with [`Refusal::NoBytes`] if the letter has
    /// fewer bytes.
    #[tactic(auto, unfolding(model::specs::Heaps::heap_letter_part))]
    pub fn letter_part(&self, count: usize) -> Result<&[u8], Refusal>
        ensures value { IfOk result (λ b. heap_letter_part self.now.heap count ≡ Ok b.now) }
        ensures refused { IfErr result (λ e. heap_letter_part self.now.heap count ≡ Err e) }
    {
        let Some(letter) = self.letters.front() else {
            return Err(Refusal::NoLetter);
        };
        let bytes = letter.bytes.as_slice();
        if count > bytes.len() {
            return Err(Refusal::NoBytes);
        }
        Ok(&bytes[..count])
    }

    // Tests whether as many more of a letter's references wait, and whether there are registers for
    // them.
    #[inline(never)]
    fn check_letter(&self, register: u16, more: u8) -> Result<(), Refusal>
        ensures { result ≡ guarded (letter_tests self.now.heap register more) tt }
    {
        if more as usize >= self.letters.len() {
            return Err(Refusal::NoLetter);
        }
        if register as usize + more as usize >= self.registers.len() {
            return Err(Refusal::NoRegister);
        }
        Ok(())
    }

    // What waits longest leaves, and the register gets its reference, or becomes empty.
    fn take_one(&mut self, register: usize)
        requires { register < length self.old.heap.registers }
        ensures heap { self.new.heap ≡ letter_taken self.old.heap register }
        ensures limit { self.new.limit ≡ self.old.limit }
        ensures room { KeepsRoom self.old self.new }
    {
        let reference = match self.letters.pop_front() {
            Some(letter) => letter.reference,
            None => None,
        };
        self.registers[register] = reference;
    }

    // The same this many times, each time for the next register.
    #[inline(never)]
    fn take_some(&mut self, register: usize, count: u8)
        requires there { register + count ≤ length self.old.heap.registers }
        requires small { register ≤ 2 ^ 16 }
        ensures heap { self.new.heap ≡ letters_taken count self.old.heap register }
        ensures limit { self.new.limit ≡ self.old.limit }
        ensures room { KeepsRoom self.old self.new }
    {
        for number in 0..count {
            self.take_one(register + usize::from(number));
        }
    }
}

// What the program is told of the letter.
#[inline(always)]
fn told_of(letter: &Letter) -> Accepted
    ensures { result ≡ told_of letter.now }
{
    Accepted {
        from: letter.from,
        label: letter.label,
        reference: letter.reference,
        count: u16::from(letter.more) + 1,
        length: letter.bytes.len(),
    }
}
