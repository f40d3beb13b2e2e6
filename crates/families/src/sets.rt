// Sets of marks, sixteen to a number: written by the marks, listed in ascending order, and added to other marks.
ghost use Rattle.std.specs.Prelude.{◌≡◌, ◌++◌, ◌+◌, ◌%◌, ◌≤◌, ◌<◌, length, get_or, take, eqb};
ghost use Rattle.model.specs.Lists.{only};
ghost use Rattle.families.specs.Kin.{bytes};
ghost use Rattle.families.specs.Sets.{wide, bit_of, packed, marked, Adds, listed, SetWritten};

use super::{BYTES, WIDE};

// That a place or a mark is in its range is about the number, so each function asks it.
// The mark at i, as a number's lowest.
fn bit(marks: &[u8; BYTES], i: usize) -> u16
    requires { i < bytes }
    ensures { (result ≡ bit_of (get_or marks.now i 0)) × (result ≤ 1) }
{
    u16::from(marks[i] != 0)
}

// The marks from `at` on in one number, the first one lowest.
fn pack(marks: &[u8; BYTES], at: usize) -> u16
    requires { at + wide ≤ bytes }
    ensures { result ≡ packed marks.now at wide }
{
    let mut number = 0;
    for i in (at..at + WIDE).rev() {
        number = 2 * number + bit(marks, i);
    }
    number
}

// Writes the set of those that are marked.
pub fn write_set(families: &mut [u16], at: usize, marks: &[u8; BYTES])
    requires { at + wide ≤ length families.old }
    ensures { SetWritten families.old families.new at marks.now }
{
    for j in 0..WIDE {
        families[at + j] = pack(marks, WIDE * j);
    }
}

// Writes a member behind n others, if the lowest mark of the number is set. The count stands beside the array, here and below: the rest is what is written
// into.
fn put_lowest(members: &mut [u8; BYTES], n: usize, member: usize, number: u16) -> usize
    requires { (n < bytes) × (member < bytes) }
    ensures { (result ≤ n + 1) × (take result members.new ≡ take n members.old ++ only (eqb (number % 2) 1) member) }
{
    if number % 2 == 1 {
        members[n] = member as u8;
        n + 1
    } else {
        n
    }
}

// Writes those that are marked in a number behind `count` members, from `at` on.
#[tactic(auto, using(crate::proofs::Marking::unpacking_went, crate::proofs::Marking::unpacking_empty, crate::proofs::Marking::unpacking_done))]
fn unpack(members: &mut [u8; BYTES], count: usize, at: usize, marks: u16) -> usize
    requires { (count ≤ at) × (at + wide ≤ bytes) }
    ensures { (result ≤ at + wide) × (take result members.new ≡ take count members.old ++ marked wide at marks) }
{
    let mut n = count;
    let mut rest = marks;
    for member in at..at + WIDE {
        if rest == 0 {
            return n;
        }
        n = put_lowest(members, n, member, rest);
        rest /= 2;
    }
    n
}

// Writes those of the set at `at` to the front of `members`, in ascending order.
#[tactic(auto, using(crate::proofs::Marking::listed_none, crate::proofs::Marking::listed_more))]
pub fn list(families: &[u16], at: usize, members: &mut [u8; BYTES]) -> usize
    requires { at + wide ≤ length families.now }
    ensures { (result ≤ bytes) × (take result members.new ≡ listed families.now at wide) }
{
    let mut n = 0;
    for j in 0..WIDE {
        n = unpack(members, n, WIDE * j, families[at + j]);
    }
    n
}

// Marks a member, if the lowest mark of the number is set.
#[tactic(auto, using(crate::proofs::Uniting::adds_one))]
fn mark_lowest(marks: &mut [u8; BYTES], member: usize, number: u16)
    requires { member < bytes }
    ensures { Adds marks.old marks.new (only (eqb (number % 2) 1) member) }
{
    if number % 2 == 1 {
        marks[member] = 1;
    }
}

// Marks those that are marked in a number, from `at` on. Like `unpack`: one loop for both, over a trait of what becomes of a mark, is longer than the two.
fn mark_number(marks: &mut [u8; BYTES], at: usize, number: u16)
    requires { (at + wide ≤ bytes) }
    ensures { Adds marks.old marks.new (marked wide at number) }
{
    let mut rest = number;
    for member in at..at + WIDE {
        if rest == 0 {
            return;
        }
        mark_lowest(marks, member, rest);
        rest /= 2;
    }
}

// Marks those of the set at `at`.
pub fn mark_set(families: &[u16], at: usize, marks: &mut [u8; BYTES])
    requires { at + wide ≤ length families.now }
    ensures { Adds marks.old marks.new (listed families.now at wide) }
{
    for j in 0..WIDE {
        mark_number(marks, WIDE * j, families[at + j]);
    }
}
