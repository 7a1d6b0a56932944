// The check on site: document 01's worked cases ("Both sides of each edge") against the functions of this very program. Each case is a line with what was
// expected and what came; the last line says whether this desk may be put into service. By the definitions every case gives what is expected, and every
// function here promises so: a case that comes otherwise tells of the machine, or of what made the program out of its text.
// Buffers have a fixed length here, since the desk has no heap.
#![tactic(auto)]

ghost use Rattle.std.specs.Prelude.{◌≡◌, true};

mod book;
mod table;

use field::part_of;
use site_leaves::{leaves, line};

fn leaves_right(rt: &impl Print, book: &mut [u8]) -> bool
    ensures { result ≡ true }
{
    let a = table::cases(
        rt,
        book,
        b"eic|10XAT-APG------Z||0|wrong character of EIC 10XAT-APG------Z;\
        eic|10XAT-APG------Y||16|wrong character of EIC 10XAT-APG------Y;\
        eic|10YAT-APG------L||0|wrong character of EIC 10YAT-APG------L;\
        eic|14XAT-APCS-----Q||0|wrong character of EIC 14XAT-APCS-----Q;\
        eic|14XBG-EMPFANG--0||0|wrong character of EIC 14XBG-EMPFANG--0;\
        eic|14XBILANZGR-1--F||0|wrong character of EIC 14XBILANZGR-1--F;\
        eic|13XBILANZGR-2--Q||0|wrong character of EIC 13XBILANZGR-2--Q;\
        eic|10XAT-aPG------Z||7|wrong character of EIC 10XAT-aPG------Z;\
        eic|10XAT-APG-----.Z||15|wrong character of EIC 10XAT-APG-----.Z;\
        eic|10XAT-||7|wrong character of EIC 10XAT-;\
        eic|10XAT-APG------ZZ||16|wrong character of EIC 10XAT-APG------ZZ;\
        eic|000000000000000A||16|wrong character of EIC 000000000000000A;",
    );
    let b = leaves::quantities(rt);
    let c = table::cases(
        rt,
        book,
        b"kw|10000||30|number of quantity text \"10000\";\
        kw|.5||30|number of quantity text \".5\";\
        kw|1.||30|number of quantity text \"1.\";\
        kw|||30|number of quantity text \"\";\
        kw|-0||31|number of quantity text \"-0\";",
    );
    line::all(&[a, b, c, leaves::printed(rt)])
}

fn checks_right(rt: &impl Print, book: &mut [u8]) -> bool
    ensures { result ≡ true }
{
    table::cases(
        rt,
        book,
        b"check|505|1|961|check with byte 505 alone 1;\
        check|506|1|31|check with byte 506 alone 1;\
        check|507|1|1|check with byte 507 alone 1;\
        check|507|31|31|check with byte 507 alone 31, which collides;",
    )
}

fn leads_right(rt: &impl Print) -> bool
    ensures { result ≡ true }
{
    let mut book = [0u8; 1024];
    table::cases(
        rt,
        &mut book,
        b"open|45||0|opening;\
        clock|15||0|clock;\
        final|5||25|lead 45, clock 15: final at position 5, still open;\
        clock|16||0|clock;\
        final|5||26|lead 45, clock 16: final at position 5, closed;\
        open|0||0|opening;\
        clock|0||0|clock;\
        final|1||25|lead 0, clock 0: final at position 1, still open;\
        clock|1||0|clock;\
        final|1||26|lead 0, clock 1: final at position 1, closed;",
    )
}

// `submit` files the seller's message, by its head and the series behind its first; `message` files a text as it stands.
fn versions_right(rt: &impl Print) -> bool
    ensures { result ≡ true }
{
    let mut book = [0u8; 1536];
    table::cases(
        rt,
        &mut book,
        b"open|45||0|opening;\
        submit|message BILANZ\nversion 1||0|the seller's first message;\
        submit|message BILANZ\nversion 2||0|message with nothing changed;\
        block|||1|and the series version kept;\
        submit|message BILANZ\nversion 2||6|stored version 2, version 2 again;\
        submit|message BILANZ\nversion 4||0|stored version 2, version 4;\
        submit|message BILANZ\nversion 3||6|stored version 4, version 3;",
    )
}

// Position 4 is closed at clock 15 and lead 45.
fn closed_right(rt: &impl Print) -> bool
    ensures { result ≡ true }
{
    let mut book = [0u8; 2048];
    table::cases(
        rt,
        &mut book,
        b"open|45||0|opening;\
        submit|message BILANZ\nversion 1||0|the seller's first message;\
        clock|15||0|clock;\
        submit|message BILANZ\nversion 2|series TS0002\narea 10YAT-APG------L\nin 14XBILANZGR-1--F\nout 14XBG-EMPFANG--0\n4 0.005\n|14|new series with 5 kW at a closed position;\
        submit|message BILANZ\nversion 2|series TS0002\narea 10YAT-APG------L\nin 14XBILANZGR-1--F\nout 14XBG-EMPFANG--0\n4 0\n|0|new series with 0 kW there;",
    )
}

// A right is entered once; a series on it is judged by its limit (C-14).
fn rights_right(rt: &impl Print) -> bool
    ensures { result ≡ true }
{
    let mut book = [0u8; 2560];
    table::cases(
        rt,
        &mut book,
        b"open|45||0|opening;\
        right|n 96\ncontract 1\nin-area 10YAT-APG------L\nout-area 10YCZ-CEPS-----N\nholder 14XBILANZGR-1--F\nagreement CEPS-APG-D-14356\n1-96 5\n||0|a right of 5 MW;\
        right|n 96\ncontract 1\nin-area 10YAT-APG------L\nout-area 10YCZ-CEPS-----N\nholder 14XBILANZGR-1--F\nagreement CEPS-APG-D-14356\n1-96 6\n||40|the same right with other limits;\
        submit|message BILANZ\nversion 1|series FPL02\ntype 3\ncontract 1\nagreement CEPS-APG-D-14356\nin-area 10YAT-APG------L\nout-area 10YCZ-CEPS-----N\nin 14XBILANZGR-1--F\nout 14XBILANZGR-1--F\n1-96 5\n|0|a series on it at its limit;\
        submit|message BILANZ\nversion 2|series FPL02\ntype 3\ncontract 1\nagreement CEPS-APG-D-14356\nin-area 10YAT-APG------L\nout-area 10YCZ-CEPS-----N\nin 14XBILANZGR-1--F\nout 14XBILANZGR-1--F\n1-96 5\n96 5.001\n|19|the same with 1 kW more at position 96;\
        submit|message BILANZ\nversion 2|series FPL03\ntype 3\ncontract 4\nagreement CEPS-APG-D-14356\nin-area 10YAT-APG------L\nout-area 10YCZ-CEPS-----N\nin 14XBILANZGR-1--F\nout 14XBILANZGR-1--F\n1-96 1\n|18|a series on a right that the sender does not hold;",
    )
}

// The buyer files the same as the seller but for 44,000 kW at position 2. A count of 0 is no state of the old layout; 1 passes as one, and the marks are written anew.
fn listed_right(rt: &impl Print) -> bool
    ensures { result ≡ true }
{
    let mut book = [0u8; 2560];
    let right = table::cases(
        rt,
        &mut book,
        b"open|45||0|opening;\
        submit|message BILANZ\nversion 1||0|the seller's message;\
        convert|||1|conversion, a series alone: its count 0 is no old state;\
        message|message EMPFANG\nversion 1\nsender 14XBG-EMPFANG--0\nreceiver 14XAT-APCS-----Q\nday 20190131\nn 96\nseries FPL01\narea 10YAT-APG------L\nin 14XBG-EMPFANG--0\nout 14XBILANZGR-1--F\n1-96 45\n2 44\n||0|the buyer's message;\
        convert|||0|conversion, both counts 1;",
    );
    line::both(right, book::listed(rt, &book))
}

fn days_right(rt: &impl Print) -> bool
    ensures { result ≡ true }
{
    let a = leads_right(rt);
    let b = versions_right(rt);
    let c = closed_right(rt);
    let d = rights_right(rt);
    line::all(&[a, b, c, d, listed_right(rt)])
}

// Every case is run, whatever an earlier one gave.
fn all_right(rt: &impl Print) -> bool
    ensures { result ≡ true }
{
    let mut no_book = [0u8; 1];
    let a = leaves_right(rt, &mut no_book);
    let b = checks_right(rt, &mut no_book);
    line::all(&[a, b, days_right(rt)])
}

pub fn run(rt: &impl Print) {
    let right = all_right(rt);
    let mut last = [0u8; 80];
    let k = line::put_fitness(&mut last, right);
    line::say(rt, part_of(&last, 0, k));
}
