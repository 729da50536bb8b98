//! The parts of a line that fall to the tags of a pattern.
#![tactic(auto)]

ghost use Rattle.std.specs.Prelude.{◌≡◌, ℕ, length, replicate, if◌then◌else◌, None, ◌≢◌};
ghost use Rattle.sheet.specs.Entries.{is_tag, entry, with_entry};

/// There are at most so many tags, numbered from 1 on. (`pattern` and `ranking` have the same number; a sheet stands apart from both.)
pub const TAGS: usize = 8;

/// The symbols of a line from `left` up to `right`, without that one.
#[derive(Clone, Copy, PartialEq, Debug)]
pub struct Part {
    pub left: usize,
    pub right: usize,
}

/// Eight entries, one for each tag: the tag's part, or that it has none.
#[derive(Clone, Copy, PartialEq, Debug)]
pub struct Sheet {
    entries: [Option<Part>; TAGS],
}

impl Sheet {
    /// A sheet on which no tag has a part.
    pub fn new() -> Sheet
        ensures { result.entries ≡ replicate 8 None }
    {
        Sheet {
            entries: [None; TAGS],
        }
    }

    /// The part of a tag, or nothing where it has none or is not 1 to 8.
    pub fn part(&self, tag: usize) -> Option<Part>
        ensures { result ≡ entry self.now.entries tag }
    {
        match tag {
            1..=TAGS => self.entries[tag - 1],
            _ => None,
        }
    }

    /// The eight entries, that of tag 1 first.
    pub fn entries(&self) -> &[Option<Part>]
        ensures value { result.now ≡ self.now.entries }
        ensures eight { length result.now ≡ 8 }
    {
        &self.entries
    }

    /// Fills the entry of one tag, and says whether there is such a tag. Every other entry stays as it is.
    // A bool, since there is nothing more to say; and a match, since tags begin at 1, so that `get_mut` would need a `checked_sub` before it.
    pub fn fill(&mut self, tag: usize, part: Option<Part>) -> bool
        ensures whether { result ≡ is_tag tag }
        ensures filled { self.new.entries ≡ with_entry self.old.entries tag part }
        ensures there { entry self.new.entries tag ≡ (if is_tag tag then part else None) }
        ensures others_stay { (other : ℕ) → (other ≢ tag) → entry self.new.entries other ≡ entry self.old.entries other }
    {
        match tag {
            1..=TAGS => {
                self.entries[tag - 1] = part;
                true
            }
            _ => false,
        }
    }
}
