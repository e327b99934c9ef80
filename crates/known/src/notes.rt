// What was learned: pairs of masks, each of which rules out splits.
ghost use Rattle.std.specs.Prelude.{◌≡◌, true, ℕ, Bool, ◌<◌};
ghost use Rattle.known.specs.Notes.{Rules, Learned, StaysLearned, Meets, Skips};

// A pair of masks: with all of `own` among the own inputs, those of `free` cannot all be free.
#[derive(Clone, Copy, Debug, PartialEq, Eq)]
pub struct Note {
    pub own: u32,
    pub free: u32,
}

impl Note {
    // Whether its own inputs are inside `own` and its free ones outside `both`.
    pub fn meets(self, own: u32, both: u32) -> bool
        ensures { result ≡ true → Meets self.own self.free own both }
    {
        self.own & !own == 0 && self.free & both == 0
    }
}

// Room for 64 notes, of which the first `kept` hold what was learned.
#[derive(Drop)]
pub struct Notes {
    pub list: [Note; 64],
    pub kept: u32,
}

impl Notes {
    // At first all are the same: a note with a position both own and free rules out nothing. The first that is kept
    // goes to place 1.
    pub fn blank() -> Notes
        ensures { (n m : ℕ) (F : ℕ → Bool) → Learned n F m result }
    {
        Notes {
            list: [Note { own: 1, free: 1 }; 64],
            kept: 1,
        }
    }

    // Whether what was learned rules out the own mask with these own and shared inputs. The note that does so moves
    // halfway to the front: what helped comes first.
    pub fn ruled(&mut self, own: u32, both: u32) -> bool
        ensures skips { result ≡ true → Skips self.old own both }
        ensures stays_learned { StaysLearned self.old self.new }
    {
        let used = self.list.len().min(self.kept as usize);
        for i in 0..used {
            if self.list[i].meets(own, both) {
                self.list.swap(i, i / 2);
                return true;
            }
        }
        false
    }

    // The place of the next note: after the first 64 the second half is used in turn.
    fn place(&self) -> usize
        ensures { result < 64 }
    {
        if self.kept < 64 {
            self.kept as usize
        } else {
            (32 + self.kept % 32) as usize
        }
    }

    // Keeps a note.
    pub fn keep(&mut self, note: Note)
        ensures { (n m : ℕ) (F : ℕ → Bool) → Learned n F m self.old → Rules n F m note → Learned n F m self.new }
    {
        let at = self.place();
        self.list[at] = note;
        self.kept = self.kept % 65536 + 1;
    }
}
