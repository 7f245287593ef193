// Contact and lift. The touch itself is lent words and nothing else: what is said of it holds whatever else the caller has.
ghost use Rattle.std.specs.Prelude.{◌≡◌, List, ℕ};
ghost use Rattle.watch.specs.Watched.{list_of, with_sent};
ghost use Rattle.commands.specs.Lent.{Lent, lending, with_words};
ghost use Rattle.touch.specs.Judge.{judged};
ghost use Rattle.panel.specs.State.{pad_of, with_pad};
ghost use Rattle.panel.specs.Numbers.{contact_said, lift_said};
ghost use Rattle.panel.specs.Listed.{contact_answered, lift_listed, said_by};
ghost use Rattle.panel.specs.Inner.{before_table};
ghost use Rattle.panel.specs.Contacts.{contact_at, on_screen, contacts, contact_error_of, only_answers, contact_on, contact_judged, touch_not_lent, contacting, lifting};

use crate::{ContactError, Contacted, LiftError, Lifted, Panel, watching};
use contact::Pad;
use frame::LEAST_ROOM;
use touch::{Point, Setup, TableError};
use watch::WatchList;
use wire::WORD_COUNT;

// A start and a contact refuse a wrong table alike, and otherwise for different reasons.
impl From<TableError> for ContactError {
    ghost from_gives = { λ why error. error ≡ contact_error_of why };

    fn from(why: TableError) -> ContactError {
        match why {
            TableError::NotRecords => ContactError::NotRecords,
            TableError::Wrong(i) => ContactError::WrongRecord(i),
        }
    }
}

impl Panel {
    // A contact at a point, under the table that is lent; where it is done, the first watched word that is due is sent unasked.
    pub fn contact(
        self,
        table: &[u8],
        words: &mut [u16],
        room: &mut [u8],
        list: &mut WatchList<'_, '_>,
        point: Point,
    ) -> Contacted
        ensures values_after { (curves : List ℕ) → contacts result (lending words.new curves room.new (list_of list.new)) ≡ contacting self (contact_at table.now point.x point.y) (lending words.old curves room.old (list_of list.old)) }
        ensures list_after { list.new ≡ with_sent list.old list.new.values.now }
        ensures answer_value { (curves : List ℕ) → contact_said result.answer result.written ≡ contact_answered self (contact_at table.now point.x point.y) (lending words.old curves room.old (list_of list.old)) }
    {
        let short = is_not_lent(words.len(), room.len());
        if let Err(why) = judge(short, list.is_wrong(), self.is_waiting()) {
            return refuse(why, self);
        }
        let done = self.touch_judged(table, words, point);
        if done.answer.is_err() {
            return done;
        }
        Contacted {
            written: watching::tell(self.setup, words, room, list),
            ..done
        }
    }

    pub fn lift(self) -> Lifted
        ensures value { result ≡ lifting self }
        ensures answer_value { lift_said result.answer ≡ said_by (lift_listed self) }
    {
        if self.is_waiting() {
            return Lifted {
                answer: Err(LiftError::Waits),
                panel: self,
            };
        }
        if !self.registers.is_down() {
            return Lifted {
                answer: Err(LiftError::IsUp),
                panel: self,
            };
        }
        Lifted {
            answer: Ok(()),
            panel: self.with_pad(contact::lift_up(self.pad())),
        }
    }

    // What a touch reads and sets.
    fn pad(self) -> Pad
        ensures { result ≡ pad_of self }
    {
        Pad {
            registers: self.registers,
            catch: self.catch,
        }
    }

    fn with_pad(self, pad: Pad) -> Panel
        ensures { result ≡ with_pad self pad }
    {
        Panel {
            registers: pad.registers,
            catch: pad.catch,
            ..self
        }
    }

    // A contact under a table that is judged first.
    fn touch_judged(self, table: &[u8], words: &mut [u16], point: Point) -> Contacted
        ensures { (rest : Lent) → contacts result (with_words rest words.new) ≡ contact_judged (judged self.setup table.now) self (contact_at table.now point.x point.y) (with_words rest words.old) }
    {
        match touch::judge(self.setup, table) {
            Ok(()) => self.touch_under(table, words, point),
            Err(why) => refuse(ContactError::from(why), self),
        }
    }

    // A contact under a good table.
    fn touch_under(self, table: &[u8], words: &mut [u16], point: Point) -> Contacted
        ensures { (rest : Lent) → contacts result (with_words rest words.new) ≡ contact_on self (contact_at table.now point.x point.y) (with_words rest words.old) }
    {
        if self.registers.is_touch_off() {
            return refuse(ContactError::TouchOff, self);
        }
        if !is_on_screen(self.setup, point) {
            return refuse(ContactError::OffScreen, self);
        }
        let pad = contact::touch_down(self.setup, self.pad(), table, words, point);
        Contacted {
            answer: Ok(()),
            written: 0,
            panel: self.with_pad(pad),
        }
    }
}

// Words or room are not what they must be. A contact is lent no curve area, and its list goes on with 1: so test and judge are its own.
#[tactic(auto, unfolding(crate::specs::Contacts::touch_not_lent))]
fn is_not_lent(words: usize, room: usize) -> bool
    ensures { result ≡ touch_not_lent words room }
{
    words != WORD_COUNT || room < LEAST_ROOM
}

fn is_on_screen(setup: Setup, point: Point) -> bool
    ensures { result ≡ on_screen setup point.x point.y }
{
    point.x < setup.width && point.y < setup.height
}

// What a contact is refused with before its table is looked at.
#[tactic(auto, unfolding(crate::specs::Inner::before_table))]
fn judge(short: bool, wrong: bool, waits: bool) -> Result<(), ContactError>
    ensures { result ≡ before_table short wrong waits }
{
    if short {
        return Err(ContactError::NotLent);
    }
    if wrong {
        return Err(ContactError::WrongList);
    }
    if waits {
        return Err(ContactError::Waits);
    }
    Ok(())
}

// A refusal, beside which nothing is written into the room.
fn refuse(why: ContactError, panel: Panel) -> Contacted
    ensures { result ≡ only_answers (Err why) panel }
{
    Contacted {
        answer: Err(why),
        written: 0,
        panel,
    }
}
