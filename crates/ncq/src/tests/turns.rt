//! Elements that change again and again: what went is forgotten, and everybody is told what he
//! would be told had it been kept.

use super::{Outside, SOURCE, WATCH, expect_end, put};
use ncq_run::Status;
use std::alloc::{AllocError, Global};
use std::test::Fail;

/// The same query as `w`, told at instant 0 and every ten after it.
const SLOW: &str =
    "create slow WHERE <Quotes><Quote><Symbol>INTC</></> ELEMENT_AS $g</> IN \"quotes\" CONSTRUCT \
     $g DO print EVERY 10\n.\n";

/// The two quotes of INTC.
const AT_95: &str = "(Quote\n(Symbol\n-INTC\n)Symbol\n(Price\n-95.5\n)Price\n)Quote\n";

const AT_96: &str = "(Quote\n(Symbol\n-INTC\n)Symbol\n(Price\n-96\n)Price\n)Quote\n";

/// All that is written fits.
const WHOLE: Outside<'static> = Outside {
    piece: 65536,
    read_faults: &[],
    room: 200_000,
    write_faults: &[],
};

/// A script, and what it is answered.
#[derive(Drop)]
struct Session {
    script: Vec<u8>,
    want: Vec<u8>,
    commands: u64,
}

impl Session {
    fn new(alloc: Global) -> Session {
        Session {
            script: Vec::new(alloc),
            want: Vec::new(alloc),
            commands: 0,
        }
    }

    /// A command, and what it is answered behind its number.
    fn ask(&mut self, command: &str, told: &str) -> Result<(), AllocError> {
        self.script.extend_from_slice(command.as_bytes())?;
        self.tell(told)
    }

    /// What the next command is answered behind its number.
    fn tell(&mut self, told: &str) -> Result<(), AllocError> {
        self.commands = self.commands.saturating_add(1);
        put("", self.commands, " ok\n", &mut self.want)?;
        self.want.extend_from_slice(told.as_bytes())
    }

    /// A quote of INTC, and what `w` is told of it at this instant.
    fn quote(&mut self, quote: &str, clock: u64, told: &[&str]) -> Result<(), AllocError> {
        self.ask("delta quotes\n", "")?;
        self.script.extend_from_slice(quote.as_bytes())?;
        self.script.extend_from_slice(b".\n")?;
        put("notice w ", clock, "\n", &mut self.want)?;
        for part in told {
            self.want.extend_from_slice(part.as_bytes())?;
        }
        Ok(())
    }

    /// Turns of INTC, which is at 96 before them and behind them.
    fn turns(&mut self, turns: u32, clock: u64) -> Result<(), AllocError> {
        for _ in 0..turns {
            self.quote(
                AT_95,
                clock,
                &["gain 1\n", AT_95, "lose 1\n", AT_96, "end\n"],
            )?;
            self.quote(
                AT_96,
                clock,
                &["lose 1\n", AT_95, "gain 1\n", AT_96, "end\n"],
            )?;
        }
        Ok(())
    }
}

/// 201 changes of one quote, which each time is another, beside a timer that is told of the first
/// 71, of 70 more that leave it where it was, and of the rest.
fn one_quote(alloc: Global) -> Result<Session, AllocError> {
    let mut session = Session::new(alloc);
    session.ask(SOURCE, "")?;
    session.ask(WATCH, "")?;
    session.ask(SLOW, "")?;
    session.quote(AT_96, 0, &["gain 1\n", AT_96, "end\n"])?;
    session.turns(35, 0)?;
    session.ask("clock 10\n", "notice slow 10\ngain 1\n")?;
    session.want.extend_from_slice(AT_96.as_bytes())?;
    session.want.extend_from_slice(b"end\n")?;
    session.turns(35, 10)?;
    session.ask("clock 20\n", "")?;
    session.turns(29, 20)?;
    session.quote(AT_95, 20, &["gain 1\n", AT_95, "lose 1\n", AT_96, "end\n"])?;
    session.ask("clock 30\n", "notice slow 30\ngain 1\n")?;
    for part in [AT_95, "lose 1\n", AT_96, "end\n"] {
        session.want.extend_from_slice(part.as_bytes())?;
    }
    Ok(session)
}

#[test]
fn a_quote_that_changes_two_hundred_times_is_told_each_time(rt: HostRuntime) -> Result<(), Fail> {
    let session = one_quote(rt.alloc())?;
    expect_end(
        &rt,
        &rt,
        &session.script,
        WHOLE,
        Status::Done,
        &session.want,
        "",
    )
}

/// Tells the price of each quote.
const PRICES: &str =
    " WHERE <Quotes><Quote><Symbol>$s</><Price>$p</></></> IN \"quotes\" CONSTRUCT <p>$p</> DO \
     print\n.\n";

/// A delta of one quote, and of 1,100 quotes at 7.
fn put_price(price: u64, script: &mut Vec<u8>) -> Result<(), AllocError> {
    script.extend_from_slice(b"(Quote\n(Symbol\n-S0\n)Symbol\n(Price\n-")?;
    put("", price, "\n)Price\n)Quote\n.\n", script)
}

fn put_quotes(script: &mut Vec<u8>) -> Result<(), AllocError> {
    for number in 0..1100u64 {
        put(
            "(Quote\n(Symbol\n-S",
            number,
            "\n)Symbol\n(Price\n-7\n)Price\n)Quote\n",
            script,
        )?;
    }
    script.extend_from_slice(b".\n")
}

/// 1,100 quotes of which one changes 140 times, and a query that comes in behind that.
fn many_quotes(alloc: Global) -> Result<Session, AllocError> {
    let mut session = Session::new(alloc);
    session.ask(SOURCE, "")?;
    session.ask("create w", "")?;
    session.script.extend_from_slice(PRICES.as_bytes())?;
    session.ask("delta quotes\n", "notice w 0\ngain 1100\n(p\n-7\n)p\nend\n")?;
    put_quotes(&mut session.script)?;
    for _ in 0..70 {
        session.ask(
            "delta quotes\n",
            "notice w 0\nlose 1\n(p\n-7\n)p\ngain 1\n(p\n-8\n)p\nend\n",
        )?;
        put_price(8, &mut session.script)?;
        session.ask(
            "delta quotes\n",
            "notice w 0\ngain 1\n(p\n-7\n)p\nlose 1\n(p\n-8\n)p\nend\n",
        )?;
        put_price(7, &mut session.script)?;
    }
    session.ask(
        "create again",
        "notice again 0\ngain 1100\n(p\n-7\n)p\nend\n",
    )?;
    session.script.extend_from_slice(PRICES.as_bytes())?;
    Ok(session)
}

#[test]
fn one_of_a_thousand_quotes_may_change_again_and_again(rt: HostRuntime) -> Result<(), Fail> {
    let session = many_quotes(rt.alloc())?;
    expect_end(
        &rt,
        &rt,
        &session.script,
        WHOLE,
        Status::Done,
        &session.want,
        "",
    )
}

/// Queries of the prices in two bands, in both at once at a timer's instants, and in a narrow one.
const LOW: &str = "create low WHERE <Quotes><Quote><Symbol>$s</><Price>$p</></></> IN \"quotes\", \
                   $p > 10, $p <= 20 CONSTRUCT <p>$p</> DO print\n.\n";

const MID: &str = "create mid WHERE <Quotes><Quote><Symbol>$s</><Price>$p</></></> IN \"quotes\", \
                   $p > 15, $p <= 40 CONSTRUCT <p>$p</> DO print\n.\n";

const WIDE: &str =
    "create wide WHERE <Quotes><Quote><Symbol>$s</><Price>$p</></></> IN \"quotes\", \
                    $p > 0, $p <= 100 CONSTRUCT <p>$p</> DO print EVERY 10\n.\n";

const NARROW: &str = "create narrow WHERE <Quotes><Quote><Symbol>$s</><Price>$p</></></> IN \
                      \"quotes\", $p >= 18, $p < 19 CONSTRUCT <p>$p</> DO print\n.\n";

/// The quote of S0 at 12, which `low` alone has, and at 18, which `mid` has too.
const PUT_12: &str =
    "delta quotes\n(Quote\n(Symbol\n-S0\n)Symbol\n(Price\n-12\n)Price\n)Quote\n.\n";

const PUT_18: &str =
    "delta quotes\n(Quote\n(Symbol\n-S0\n)Symbol\n(Price\n-18\n)Price\n)Quote\n.\n";

/// What both are told of the one behind the other.
const TOLD_18: &str = "notice low 0\nlose 1\n(p\n-12\n)p\ngain 1\n(p\n-18\n)p\nend\nnotice mid \
                       0\ngain 1\n(p\n-18\n)p\nend\n";

const TOLD_12: &str = "notice low 0\ngain 1\n(p\n-12\n)p\nlose 1\n(p\n-18\n)p\nend\nnotice mid \
                       0\nlose 1\n(p\n-18\n)p\nend\n";

/// A quote that comes into a band and leaves it 201 times, beside a timer with a band around both:
/// rows that went are struck out up to the timer's mark, so it is told what differs since then.
fn bands(alloc: Global) -> Result<Session, AllocError> {
    let mut session = Session::new(alloc);
    for command in [SOURCE, LOW, MID, WIDE] {
        session.ask(command, "")?;
    }
    session.ask(PUT_12, "notice low 0\ngain 1\n(p\n-12\n)p\nend\n")?;
    for _ in 0..200 {
        session.ask(PUT_18, TOLD_18)?;
        session.ask(PUT_12, TOLD_12)?;
    }
    session.ask("clock 10\n", "notice wide 10\ngain 1\n(p\n-12\n)p\nend\n")?;
    session.ask(
        PUT_18,
        "notice low 10\nlose 1\n(p\n-12\n)p\ngain 1\n(p\n-18\n)p\nend\nnotice mid 10\ngain \
         1\n(p\n-18\n)p\nend\n",
    )?;
    // A band that comes in now has what is there now, and nothing of what went.
    session.ask(NARROW, "notice narrow 10\ngain 1\n(p\n-18\n)p\nend\n")?;
    session.ask(
        "clock 20\n",
        "notice wide 20\nlose 1\n(p\n-12\n)p\ngain 1\n(p\n-18\n)p\nend\n",
    )?;
    session.ask("delete low\n", "")?;
    session.ask(
        "delta quotes\n!S0\n.\n",
        "notice mid 20\nlose 1\n(p\n-18\n)p\nend\nnotice narrow 20\nlose 1\n(p\n-18\n)p\nend\n",
    )?;
    session.ask("clock 30\n", "notice wide 30\nlose 1\n(p\n-18\n)p\nend\n")?;
    Ok(session)
}

#[test]
fn a_quote_may_leave_a_band_and_come_again_and_again(rt: HostRuntime) -> Result<(), Fail> {
    let session = bands(rt.alloc())?;
    expect_end(
        &rt,
        &rt,
        &session.script,
        WHOLE,
        Status::Done,
        &session.want,
        "",
    )
}
