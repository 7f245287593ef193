// Asking for a report: it is handed over and acknowledged, and an accepted frame takes effect.
ghost use Rattle.std.specs.Prelude.{◌≡◌, [], min, length};
ghost use Rattle.wire.specs.Room.{lays};
ghost use Rattle.frame.specs.Frame.{most_payload};
ghost use Rattle.line.specs.State.{padded};
ghost use Rattle.registers.specs.Table.{holding};
ghost use Rattle.curves.specs.Area.{draws};
ghost use Rattle.watch.specs.Watched.{list_of, with_sent};
ghost use Rattle.commands.specs.Lent.{Lent, lending, with_words_room};
ghost use Rattle.commands.specs.Effect.{counts_left};
ghost use Rattle.panel.specs.Listed.{ask_said};
ghost use Rattle.panel.specs.Numbers.{handed_said};
ghost use Rattle.panel.specs.State.{fixed_for};
ghost use Rattle.panel.specs.Inner.{ask_judged};
ghost use Rattle.panel.specs.Reporting.{enough, acknowledged, effects, accepting, length_of, catch_after, only_handed, accepted_over, overs, handing_over, drawing, refused, reports, reporting};

use crate::{Effected, Handed, HandedOver, LentError, Panel, Reported, starting, watching};
use commands::Fixed;
use curves::{CURVE_WORDS, Counts};
use frame::{LEAST_ROOM, MOST_PAYLOAD};
use line::{Asked, Report};
use touch::{Record, Setup};
use watch::WatchList;
use wire::WORD_COUNT;

impl Panel {
    // Asks for a report: hands it over, acknowledges it, and does what an accepted frame says. Words, curve area and room each go on as a lent slice: 01 has the
    // words so, commands are lent no curve area, and the reply has a part of the room alone.
    pub fn report(
        self,
        words: &mut [u16],
        curves: &mut [u16],
        room: &mut [u8],
        list: &mut WatchList<'_, '_>,
    ) -> Reported
        ensures values_after { reports result (lending words.new curves.new room.new (list_of list.new)) ≡ reporting self (lending words.old curves.old room.old (list_of list.old)) }
        ensures list_after { list.new ≡ with_sent list.old list.new.values.now }
        ensures handed_value { handed_said result.handed ≡ ask_said self (lending words.old curves.old room.old (list_of list.old)) }
    {
        let enough = is_lent(words.len(), curves.len(), room.len());
        if let Err(why) = judge(enough, list.is_wrong()) {
            return refuse(why, self);
        }
        let asked = self.reader.ask();
        // a local of their own: to lend a part of self copies all of self
        let mut registers = self.registers;
        let done = hand_over(self.setup, &registers.bytes, &asked, words, room);
        let catch = catch_after(done.drops, self.catch);
        let content = &asked.payload[..content_length(asked.report)];
        let counts = draw(done.writes, done.adds, self.counts, content, curves);
        watching::note(done.notes, content, words, list);
        if done.writes {
            registers = commands::registers_left(registers, content);
        }
        Reported {
            handed: Ok(done.handed),
            payload: asked.payload,
            panel: Panel {
                registers,
                catch,
                counts,
                reader: asked.reader,
                ..self
            },
        }
    }
}

// Words, curve area and room are what they must be.
#[tactic(auto, unfolding(crate::specs::Reporting::enough))]
fn is_lent(words: usize, curves: usize, room: usize) -> bool
    ensures { result ≡ enough words curves room }
{
    words == WORD_COUNT && curves == CURVE_WORDS && LEAST_ROOM <= room
}

// Why no report is handed over: 14, then 16.
#[tactic(auto, unfolding(crate::specs::Inner::ask_judged))]
fn judge(lent: bool, wrong: bool) -> Result<(), LentError>
    ensures { result ≡ ask_judged lent wrong }
{
    if !lent {
        return Err(LentError::NotLent);
    }
    if wrong {
        return Err(LentError::WrongList);
    }
    Ok(())
}

// What is lent is not what it must be: the report still waits.
fn refuse(why: LentError, panel: Panel) -> Reported
    ensures { result ≡ refused (Err why) panel }
{
    Reported {
        handed: Err(why),
        payload: wire::zeros(),
        panel,
    }
}

// What setup fixes for every command.
fn fixed_for(setup: Setup) -> Fixed
    ensures { result ≡ fixed_for setup }
{
    Fixed {
        header: starting::header_for(setup),
        checking: touch::checking(setup),
        pages: setup.pages,
    }
}

// Lays an acknowledgement, where they are wanted; answers how long it is.
fn acknowledge(setup: Setup, command: u8, good: bool, room: &mut [u8]) -> usize
    ensures { lays result room.new ≡ acknowledged setup command good room.old }
{
    // `&` and no `&&`: the law goes by one equation of truth values
    if touch::checking(setup) & touch::acknowledging(setup) {
        frame::put_acknowledgement(starting::header_for(setup), command, good, room)
    } else {
        0
    }
}

// Acknowledges an accepted frame and does what it says; the reply is laid into the part of the room behind the acknowledgement.
fn accept(
    setup: Setup,
    registers: &[u8],
    command: u8,
    content: &[u8],
    words: &mut [u16],
    room: &mut [u8],
) -> Effected
    ensures { (rest : Lent) → effects result (with_words_room rest words.new room.new) ≡ accepting setup (holding registers.now) command content.now (with_words_room rest words.old room.old) }
{
    let k = acknowledge(setup, command, true, room);
    let performed = commands::perform(
        fixed_for(setup),
        registers,
        command,
        content,
        words,
        &mut room[k..],
    );
    Effected {
        performed,
        acknowledged: k,
    }
}

fn catch_after(drops: bool, catch: Option<Record>) -> Option<Record>
    ensures { result ≡ catch_after drops catch }
{
    if drops { None } else { catch }
}

// How much data an accepted frame has, at most the whole of it.
fn content_length(report: Option<Report>) -> usize
    ensures { result ≡ min (length_of report) most_payload }
{
    match report {
        Some(Report::Accepted { len, .. }) => len.min(MOST_PAYLOAD),
        _ => 0,
    }
}

// Nothing is to be written into the registers.
fn only(handed: Option<Handed>) -> HandedOver
    ensures { result ≡ only_handed handed }
{
    HandedOver {
        handed,
        writes: false,
        drops: false,
        adds: false,
        notes: false,
    }
}

// An accepted frame with what it has done.
fn accepted(command: u8, count: usize, done: Effected) -> HandedOver
    ensures { result ≡ accepted_over command count done }
{
    let performed = done.performed;
    HandedOver {
        handed: Some(Handed::Accepted {
            command,
            count,
            outcome: performed.outcome,
            acknowledged: done.acknowledged,
            replied: performed.replied,
        }),
        writes: performed.writes,
        drops: performed.drops,
        adds: performed.adds,
        notes: performed.notes,
    }
}

// A write of registers: a channel that it clears has no numbers any more. The area's words stay: it is lent so that `clear_zeroes_words` is refused here.
fn clear(counts: Counts, content: &[u8], area: &mut [u16]) -> Counts
    ensures value { result ≡ counts_left counts content.now }
    ensures area_unchanged { area.new ≡ area.old }
{
    commands::counts_left(counts, content)
}

// What a report does to the curves.
fn draw(writes: bool, adds: bool, counts: Counts, content: &[u8], area: &mut [u16]) -> Counts
    ensures { draws result area.new ≡ drawing writes adds counts content.now area.old }
{
    if adds {
        return curves::add(counts, content, area);
    }
    if writes {
        return clear(counts, content, area);
    }
    counts
}

// What a report does to words and room when it is handed over, and what it asks for besides.
fn hand_over(
    setup: Setup,
    registers: &[u8],
    asked: &Asked,
    words: &mut [u16],
    room: &mut [u8],
) -> HandedOver
    ensures { (rest : Lent) → overs result (with_words_room rest words.new room.new) ≡ handing_over setup (holding registers.now) asked.now.report asked.now.payload (with_words_room rest words.old room.old) }
{
    let Some(report) = asked.report else {
        return only(None);
    };
    match report {
        Report::BadCheck(command) => {
            let acknowledged = acknowledge(setup, command, false, room);
            only(Some(Handed::BadCheck(command, acknowledged)))
        }
        Report::Accepted { command, len } => {
            let content = &asked.payload[..len.min(MOST_PAYLOAD)];
            accepted(
                command,
                len,
                accept(setup, registers, command, content, words, room),
            )
        }
    }
}
