//! The crew's calendar of a roster: who works on which date, and the dates themselves.
#![tactic(auto)]

mod civil_date;
mod content_lines;
mod csv;
mod dates;
mod duty_lines;
mod events;
mod laws;
mod lines;
mod on_date;
mod places;
mod sheet;

pub use civil_date::CivilDate;
pub use content_lines::{LONGEST_ROW, put_content_line, put_escaped};
pub use dates::{
    DAY_MINUTES, MOST_DAYS_APART, MOST_DAYS_LATER, date_after, date_of, days_between, fits,
    is_not_before, put_date, put_weekday,
};
pub use duty_lines::duties;
pub use events::{duty_calendar, has_duty};
pub use laws::{
    characters_stay_whole, dates_are_as_in_tables, dates_have_one_text, demand_is_met_daily,
    duties_are_listed, duties_are_one, employees_follow_the_cycle, employees_go_round,
    employees_keep_the_rules, events_are_one, events_are_read_back, lines_are_read_back,
    records_are_read_back, rows_are_short, sheets_are_as_tables, sheets_are_one,
    sheets_are_read_back, tables_are_one, texts_are_read_back, words_name_one_date,
};
pub use lines::crew_table;
pub use on_date::who_works;
pub use places::place;
pub use sheet::crew_sheet;
