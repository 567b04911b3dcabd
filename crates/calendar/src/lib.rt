// Whether an interval, a date and a run are in their ranges. Books and statements carry the same three numbers.
#![tactic(auto)]

ghost use Rattle.std.specs.Prelude.{◌≡◌};
ghost use Rattle.calendar.specs.Calendar.{leap_year, thirty_days, days_in, is_date, is_interval, is_run, is_period};

fn leap_year(year: u32) -> bool
    ensures { result ≡ leap_year year }
{
    (year % 4 == 0) & ((year % 100 != 0) | (year % 400 == 0))
}

fn thirty_days(month: u32) -> bool
    ensures { result ≡ thirty_days month }
{
    (month == 4) | (month == 6) | (month == 9) | (month == 11)
}

fn days_in(year: u32, month: u32) -> u32
    ensures { result ≡ days_in year month }
{
    if month == 2 {
        return if leap_year(year) { 29 } else { 28 };
    }
    if thirty_days(month) { 30 } else { 31 }
}

// A date is one number, YYYYMMDD.
pub fn is_date(date: u32) -> bool
    ensures { result ≡ is_date date }
{
    let year = date / 10_000;
    let month = date / 100 % 100;
    let day = date % 100;
    (2025 <= year)
        & (year <= 2099)
        & (1 <= month)
        & (month <= 12)
        & (1 <= day)
        & (day <= days_in(year, month))
}

pub fn is_period(interval: u16, date: u32, run: u16) -> bool
    ensures { result ≡ is_period interval date run }
{
    let interval_fine = (1 <= interval) & (interval <= 288);
    let run_fine = (1 <= run) & (run <= 99);
    interval_fine & is_date(date) & run_fine
}
