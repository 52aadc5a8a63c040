// A case of a supply vessel's profile: the count of KN with the numbers, and KM and KG. Its answer: a line of the profile's figures and rules, and a line of GZ; or a refusal.
use crate::calls::{self, Call, Lines};
use crate::text::{ROOM, Text};
use levers::{ANGLES, Profile, Rule, Rules};
use std::fmt;
use std::fmt::Write;

// What stands in the room for GZ before the call: no GZ is so great.
const UNTOUCHED: i64 = 1_000_000;

pub(crate) struct Profiles;

// What a table of KN comes to: GZ at each angle, and the profile.
#[derive(Clone, Copy)]
struct Found<'a> {
    gz: &'a [i64; ANGLES],
    profile: Profile,
}

impl Call for Profiles {
    const START: &'static str = "profile-";

    const DIFFERING: &'static str = "supply-vessel profiles that differ ";

    const FEWEST: u64 = 52;

    fn compare(given: &mut Text, answer: &mut Text) -> Option<()> {
        let mut kn = [0u64; ROOM];
        let kn = given.table(&mut kn)?;
        let km = given.number()?;
        let kg = given.next()?;
        given.line_end()?;
        let mut gz = [UNTOUCHED; ANGLES];
        let made = levers::profile_of(kn, km, kg, &mut gz);
        // A refusal leaves the room for GZ as it was.
        if made.is_err() && gz != [UNTOUCHED; ANGLES] {
            return None;
        }
        let gz = &gz;
        calls::write_answer(answer, made.map(|profile| Found { gz, profile })).ok()
    }
}

impl Lines for Found<'_> {
    fn write(self, answer: &mut Text) -> fmt::Result {
        write_profile(answer, self.profile)?;
        write_levers(answer, self.gz)
    }
}

// The line of a profile: A, the peak's angle, GM, GZ at 30 degrees, the sums to t and from 30 to 40 degrees, and the rules.
fn write_profile(answer: &mut Text, profile: Profile) -> fmt::Result {
    write!(
        answer,
        "A {} {} {} {} {}",
        profile.peak_angle,
        profile.gm,
        profile.gz_at_30,
        profile.sum_to_t,
        profile.sum_from_30_to_40
    )?;
    write_rules(answer, profile.rules)
}

// The five rules, and the end of the line: 1 where a rule is met, and 0 where it is missed.
fn write_rules(answer: &mut Text, rules: Rules) -> fmt::Result {
    for rule in [
        rules.peak,
        rules.area_to_t,
        rules.area_from_30_to_40,
        rules.gz_at_30,
        rules.gm,
    ] {
        answer.write_str(match rule {
            Rule::Met => " 1",
            Rule::Missed => " 0",
        })?;
    }
    writeln!(answer)
}

// The line of GZ at each angle.
fn write_levers(answer: &mut Text, gz: &[i64; ANGLES]) -> fmt::Result {
    write!(answer, "{}", gz[0])?;
    for lever in &gz[1..] {
        write!(answer, " {lever}")?;
    }
    writeln!(answer)
}
