// The values that the desk's calls take and give. The definitions in specs/ speak of these same types, so that a promise reads
// `r ≡ definition(inputs)`. There is no function here.
#![tactic(auto)]

// A quarter-hour of the day, from 1; 0 where an answer has none.
#[repr(C)]
#[derive(Clone, Copy, PartialEq, Eq)]
pub struct Position(pub usize);

// A place for a block in the book, from 1; 0 where an answer has none.
#[repr(C)]
#[derive(Clone, Copy, PartialEq, Eq)]
pub struct Slot(pub usize);

// A minute, counted from 10,080 minutes before the day's start, as the day block keeps its clock.
#[repr(C)]
#[derive(Clone, Copy, PartialEq, Eq)]
pub struct Minute(pub u16);

// The rule by which a final value is chosen, by the byte that names it in the day block: any byte may be put to an opening, and no sound book has another
// than these two.
#[repr(C)]
#[derive(Clone, Copy, PartialEq, Eq)]
pub struct Rule(pub u8);

// The seller's quantity.
pub const SELLERS: Rule = Rule(0);

// The lesser of the seller's and the buyer's, a missing series counting 0.
pub const LESSER: Rule = Rule(1);

// The verdict on a message: the number of the first broken rule, or 0, with its reason code (0 where it has none; A53 is 53), the series and the
// position at which it is broken, and on 4 and 8 the number that the EIC check gives the code at fault: which character is wrong.
#[repr(C)]
#[derive(Clone, Copy)]
pub struct Verdict {
    pub number: u32,
    pub code: u8,
    pub series: usize,
    pub position: Position,
    pub character: u8,
}

// The answer to a submission, with the number of slots that its search for counterparts looked at: 0 on every refusal.
#[repr(C)]
#[derive(Clone, Copy)]
pub struct SubmitAnswer {
    pub verdict: Verdict,
    pub looked: usize,
}

// The answer to an opening, on 21 with the number that the EIC check gives the code at fault.
#[repr(C)]
#[derive(Clone, Copy)]
pub struct OpenAnswer {
    pub number: u32,
    pub character: u8,
}

// What the clock's call hands back beside its answer.
#[repr(C)]
#[derive(Clone, Copy)]
pub struct DayState {
    pub n: u8,
    pub lead: u16,
    pub clock: Minute,
}

#[repr(C)]
#[derive(Clone, Copy)]
pub struct ClockAnswer {
    pub number: u32,
    pub state: DayState,
}

// How a submission is answered: by an acknowledgement (kind 0), which has a status (1 for A01, 2 for A02) and a reason code, by the
// uninterpretable-message mail (1) or by a desk notice (2), which have neither.
#[repr(C)]
#[derive(Clone, Copy)]
pub struct Reply {
    pub kind: u8,
    pub status: u8,
    pub code: u8,
}

// The kept mark of a series: at how many positions its counterpart differs, the code of what the mark says (28 for A28, 9 for A09, 0 where it has
// none), the first of these positions and the counterpart's slot.
#[repr(C)]
#[derive(Clone, Copy)]
pub struct MarkAnswer {
    pub number: u32,
    pub differ: u8,
    pub code: u8,
    pub first: Position,
    pub partner: Slot,
}

#[repr(C)]
#[derive(Clone, Copy)]
pub struct FinalAnswer {
    pub number: u32,
    pub kilowatts: u32,
}

// The two sums of a party's settled position, in kilowatts: the finals of the pairs in which it buys and of those in which it sells. A book of 1,001 blocks holds
// sums that pass 32 bits.
#[repr(C)]
#[derive(Clone, Copy)]
pub struct SettledAnswer {
    pub number: u32,
    pub bought: u64,
    pub sold: u64,
}

#[repr(C)]
#[derive(Clone, Copy)]
pub struct PlainRunAnswer {
    pub number: u32,
    pub holds: bool,
}

// What a quantity text says, in kilowatts.
#[repr(C)]
#[derive(Clone, Copy)]
pub struct QuantityRead {
    pub number: u32,
    pub kilowatts: u32,
}

// How long the printed text of a quantity is.
#[repr(C)]
#[derive(Clone, Copy)]
pub struct QuantityPrinted {
    pub number: u32,
    pub length: usize,
}
