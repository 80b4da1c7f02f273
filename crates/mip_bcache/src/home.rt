//! What is kept of one home.

ghost use Rattle.std.specs.Prelude.{◌≡◌, ◌≤◌, ◌<◌, ◌+◌, ◌^◌, [], ◌∷◌, ◌++◌, Some, map, length, option_copied, IsNone, slice_get, vec_capacity};
ghost use Rattle.std.specs.List.{list_any, AllByRecursion};
ghost use Rattle.mip_words.specs.Last.{last_where};
ghost use Rattle.mip_binding.specs.Rows.{find_by, others_by};
ghost use Rattle.mip_bcache.specs.Seen.{stands, stands_under, stands_at, number_of, until_set, latest, row_for, rows_made, rows_left, rows_of_home};
ghost use Rattle.mip_bcache.specs.Table.{live_in, rows_seen};

use crate::accepted::Accepted;
use crate::row::Row;
use mip_words::constants::MAX_NONCE_LIFETIME;
use mip_words::{Address, Moment};

/// The rows of a home: the one accepted last, and those of other numbers before it, oldest first.
#[derive(Drop)]
pub struct Home {
    pub last: Row,
    pub others: Vec<Row>,
}

impl Home {
    /// A home after an acceptance, beside whose row these are left. Each row is kept to the moment to which
    /// the home's sequence is.
    pub fn made(now: Moment, home: Address, number: u8, accepted: Accepted, left: Vec<Row>) -> Home
        requires { now.0 < 2 ^ 62 }
        ensures seen { rows_seen result ≡ rows_made now.0 home number accepted left.items }
        ensures capacity { vec_capacity result.others ≡ vec_capacity left }
    {
        let mut others = left;
        let period = Moment(now.0 + MAX_NONCE_LIFETIME);
        let until = Moment(accepted.end.0.max(latest_end(&others, period).0));
        keep_until(&mut others, until);
        Home {
            last: row_for(until, home, number, accepted),
            others,
        }
    }

    /// The home after another acceptance for it.
    pub fn renewed(self, now: Moment, home: Address, number: u8, accepted: Accepted) -> Home
        requires early { now.0 < 2 ^ 62 }
        requires room { length (others_by number_of number (live_in self)) ≤ vec_capacity self.others }
        ensures seen { rows_seen result ≡ rows_made now.0 home number accepted (rows_left home number accepted (Some (rows_seen self))) }
        ensures capacity { vec_capacity self.others ≤ vec_capacity result.others }
    {
        let mut others = self.others;
        if accepted.careof.0 == home.0 {
            others.clear();
        } else {
            leave_others(&mut others, self.last, number);
        }
        Home::made(now, home, number, accepted, others)
    }

    /// The row whose binding stands; of several the one accepted last.
    pub fn standing(&self, now: Moment, home: Address) -> Option<&Row>
        ensures { option_copied result ≡ last_where (stands home.0 now.0) (live_in self.now) }
    {
        if self.last.stands(now, home) {
            return Some(&self.last);
        }
        let mut found = None;
        for row in &self.others {
            if row.stands(now, home) {
                found = Some(row);
            }
        }
        found
    }

    /// The row under a number, where its binding stands.
    pub fn standing_under(&self, now: Moment, home: Address, number: u8) -> Option<&Row>
        ensures { option_copied result ≡ last_where (stands_under home.0 number now.0) (live_in self.now) }
    {
        if self.last.stands_under(now, home, number) {
            return Some(&self.last);
        }
        let mut found = None;
        for row in &self.others {
            if row.stands_under(now, home, number) {
                found = Some(row);
            }
        }
        found
    }

    /// Whether a binding stands at this care-of address.
    pub fn holds(&self, now: Moment, home: Address, careof: Address) -> bool
        ensures { result ≡ list_any (stands_at home.0 now.0 careof.0) (live_in self.now) }
    {
        for row in &self.others {
            if row.stands_at(now, home, careof) {
                return true;
            }
        }
        self.last.stands_at(now, home, careof)
    }

    /// The row under a number.
    fn under(&self, number: u8) -> Option<&Row>
        ensures { option_copied result ≡ find_by number_of number (live_in self.now) }
    {
        for row in &self.others {
            if row.number == number {
                return Some(row);
            }
        }
        if self.last.number == number {
            Some(&self.last)
        } else {
            None
        }
    }

    /// The row at a place in order of number. Where there are fewer rows, `place` is what is left of it.
    pub fn row(&self, numbers: u8, place: &mut u32) -> Option<&Row>
        requires few { numbers ≤ 8 }
        requires below { AllByRecursion (λ r. r.number < numbers) (live_in self.now) }
        ensures found { option_copied result ≡ slice_get (rows_of_home (rows_seen self.now)) place.old }
        ensures passed { IsNone result → place.new + length (rows_of_home (rows_seen self.now)) ≡ place.old }
    {
        let mut number = 0;
        while number < numbers {
            match self.under(number) {
                Some(row) => {
                    if *place == 0 {
                        return Some(row);
                    }
                    *place -= 1;
                }
                None => (),
            }
            number += 1;
        }
        None
    }
}

/// The latest end of these rows, and this moment at least.
fn latest_end(rows: &[Row], moment: Moment) -> Moment
    ensures { result.0 ≡ latest moment.0 rows.now }
{
    let mut late = moment.0;
    for row in rows {
        late = late.max(row.end.0);
    }
    Moment(late)
}

/// Keeps each row to a moment.
fn keep_until(rows: &mut [Row], until: Moment)
    ensures { rows.new ≡ map (until_set until.0) rows.old }
{
    for row in rows.iter_mut() {
        row.kept_until = until;
    }
}

/// Leaves the rows of other numbers, the last one behind them.
fn leave_others(rows: &mut Vec<Row>, last: Row, number: u8)
    requires { length (others_by number_of number (rows.old.items ++ last ∷ [])) ≤ vec_capacity rows.old }
    ensures items { rows.new.items ≡ others_by number_of number (rows.old.items ++ last ∷ []) }
    ensures capacity { vec_capacity rows.old ≤ vec_capacity rows.new }
{
    rows.retain(|row| row.number != number);
    if last.number == number {
        return;
    }
    match rows.push(last) {
        Ok(()) => (),
        Err(_) => unreachable!(),
    }
}

/// The row of an acceptance, kept to a moment.
fn row_for(until: Moment, home: Address, number: u8, accepted: Accepted) -> Row
    ensures { result ≡ row_for until.0 home number accepted }
{
    Row {
        home,
        number,
        careof: accepted.careof,
        sequence: accepted.sequence,
        end: accepted.end,
        kept_until: until,
        home_nonce: accepted.home_nonce,
        careof_nonce: accepted.careof_nonce,
    }
}
