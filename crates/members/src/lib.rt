// A set of numbers as bits in words of 64. Bit i % 64 of word i / 64 stands for number i.
#![tactic(auto)]

ghost use Rattle.std.specs.Prelude.{◌≡◌, true, ◌<◌};
ghost use Rattle.formulas.specs.Table.{table_rows};
ghost use Rattle.members.specs.Members.{is_in, with_number, without_member, LeastIn};

// How many words a set has.
pub const WORDS: usize = 64;

pub type Cover = [u64; WORDS];

// Puts a number into the set.
pub fn insert(cover: &mut Cover, i: usize)
    requires { i < table_rows }
    ensures { cover.new ≡ with_number cover.old i }
{
    cover[i / 64] |= 1 << (i % 64);
}

// Takes a member out of the set.
pub fn remove(cover: &mut Cover, i: usize)
    requires { (i < table_rows) × (is_in cover.old i ≡ true) }
    ensures { cover.new ≡ without_member cover.old i }
{
    cover[i / 64] ^= 1 << (i % 64);
}

// The least member.
pub fn least(cover: &Cover) -> Option<usize>
    ensures { LeastIn cover.now result }
{
    for (at, word) in cover.iter().enumerate() {
        if *word != 0 {
            return Some(at * 64 + word.trailing_zeros() as usize);
        }
    }
    None
}
