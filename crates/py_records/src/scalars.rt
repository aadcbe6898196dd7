//! Numbers, bytes, ranges, dates and times.
ghost use Rattle.std.specs.Prelude.{◌≡◌, ◌↔◌, IsTrue, IfSome, option_map, codes, Some, None};
ghost use Rattle.toml.specs.View.{table_view};
ghost use Rattle.py_layout.specs.Values.{group_at};
ghost use Rattle.py_records.specs.Scalars.{bytearray_places, IsSoundBytearray, bytearray_in, complex_places};
ghost use Rattle.py_records.specs.Scalars.{IsSoundComplex, complex_in, range_places, IsSoundRange, range_in};
ghost use Rattle.py_records.specs.Scalars.{slice_places, IsSoundSlice, slice_in, decimal_places, IsSoundDecimal};
ghost use Rattle.py_records.specs.Scalars.{decimal_in, date_places, IsSoundDate, date_in, time_places, IsSoundTime};
ghost use Rattle.py_records.specs.Scalars.{time_in, datetime_places, IsSoundDatetime, datetime_in, timedelta_places};
ghost use Rattle.py_records.specs.Scalars.{IsSoundTimedelta, timedelta_in, scalars_from, AreSoundScalars};
ghost use Rattle.py_records.specs.Scalars.{joined_scalars, share_scalars, no_scalars};

use crate::places::{any_both, is_record};
use crate::values::{group_at, number_in};
use toml::Table;

/// A `bytearray` (`PyByteArrayObject`, Include/bytearrayobject.h).
#[derive(Clone, Copy)]
pub struct BytearrayRecord {
    /// The basic size that its type states.
    pub size: u32,
    /// How many bytes it has.
    pub count: u32,
    /// How many there is room for.
    pub allocated: u32,
    /// The address of the room.
    pub bytes: u32,
    /// The address of the first byte.
    pub start: u32,
}

/// A complex number (`PyComplexObject`, Include/complexobject.h).
#[derive(Clone, Copy)]
pub struct ComplexRecord {
    /// The basic size that its type states.
    pub size: u32,
    /// The real part, a double.
    pub real: u32,
    /// The imaginary part, a double.
    pub imag: u32,
}

/// A `range` (`rangeobject`, Objects/rangeobject.c).
#[derive(Clone, Copy)]
pub struct RangeRecord {
    /// The basic size that its type states.
    pub size: u32,
    /// The address of the first number.
    pub start: u32,
    /// The address of the number before which it ends.
    pub stop: u32,
    /// The address of the step.
    pub step: u32,
    /// The address of how many there are.
    pub length: u32,
}

/// A slice (`PySliceObject`, Include/sliceobject.h).
#[derive(Clone, Copy)]
pub struct SliceRecord {
    /// The basic size that its type states.
    pub size: u32,
    /// The address of where it begins.
    pub start: u32,
    /// The address of where it ends.
    pub stop: u32,
    /// The address of the step.
    pub step: u32,
}

/// A `Decimal` (`PyDecObject`, Modules/_decimal/_decimal.c).
#[derive(Clone, Copy)]
pub struct DecimalRecord {
    /// The basic size that its type states.
    pub size: u32,
    /// Sign, infinity and NaN, by bits. It has 1 byte.
    pub flags: u32,
    /// A signed number.
    pub exponent: u32,
    /// How many decimal digits it has.
    pub digits: u32,
    /// How many words it has, each of 19 decimal digits.
    pub words: u32,
    /// The address of the words.
    pub coefficient: u32,
}

/// A date (`PyDateTime_Date`, Include/datetime.h).
#[derive(Clone, Copy)]
pub struct DateRecord {
    /// The basic size that its type states.
    pub size: u32,
    /// Year (2 bytes, the higher first), month and day. It has 4 bytes.
    pub packed: u32,
}

/// A time of day (`PyDateTime_Time`, Include/datetime.h).
#[derive(Clone, Copy)]
pub struct TimeRecord {
    /// The basic size that its type states.
    pub size: u32,
    /// Whether the zone is there. It has 1 byte.
    pub has_zone: u32,
    /// Hour, minute, second and microsecond. It has 6 bytes.
    pub packed: u32,
    /// Which of two times of one name it is. It has 1 byte.
    pub fold: u32,
    /// The address of the time zone.
    pub zone: u32,
}

/// A date with a time (`PyDateTime_DateTime`, Include/datetime.h).
#[derive(Clone, Copy)]
pub struct DatetimeRecord {
    /// The basic size that its type states.
    pub size: u32,
    /// Whether the zone is there. It has 1 byte.
    pub has_zone: u32,
    /// A date's bytes, and a time's. It has 10 bytes.
    pub packed: u32,
    /// Which of two times of one name it is. It has 1 byte.
    pub fold: u32,
    /// The address of the time zone.
    pub zone: u32,
}

/// A span of time (`PyDateTime_Delta`, Include/datetime.h).
#[derive(Clone, Copy)]
pub struct TimedeltaRecord {
    /// The basic size that its type states.
    pub size: u32,
    /// A signed number. It has 4 bytes.
    pub days: u32,
    /// It has 4 bytes.
    pub seconds: u32,
    /// It has 4 bytes.
    pub microseconds: u32,
}

/// Numbers, bytes, ranges, dates and times. Each group is there or not.
#[derive(Clone, Copy)]
pub struct ScalarRecords {
    pub bytearray: Option<BytearrayRecord>,
    pub complex: Option<ComplexRecord>,
    pub range: Option<RangeRecord>,
    pub slice: Option<SliceRecord>,
    pub decimal: Option<DecimalRecord>,
    pub date: Option<DateRecord>,
    pub time: Option<TimeRecord>,
    pub datetime: Option<DatetimeRecord>,
    pub timedelta: Option<TimedeltaRecord>,
}

fn bytearray_from(table: &Table) -> Option<BytearrayRecord>
    ensures { result ≡ option_map bytearray_in (group_at (table_view table.now) (codes "bytearray")) }
{
    match group_at(table, "bytearray") {
        Some(group) => Some(BytearrayRecord {
            size: number_in(group, "size"),
            count: number_in(group, "count"),
            allocated: number_in(group, "allocated"),
            bytes: number_in(group, "bytes"),
            start: number_in(group, "start"),
        }),
        None => None,
    }
}

#[tactic(auto, unfolding(crate::specs::Scalars::bytearray_places))]
fn is_sound_bytearray(at: Option<BytearrayRecord>) -> bool
    ensures { IsTrue result ↔ IfSome at IsSoundBytearray }
{
    match at {
        Some(at) => is_record(
            at.size,
            &[
                (at.count, 8),
                (at.allocated, 8),
                (at.bytes, 8),
                (at.start, 8),
            ],
        ),
        None => true,
    }
}

fn complex_from(table: &Table) -> Option<ComplexRecord>
    ensures { result ≡ option_map complex_in (group_at (table_view table.now) (codes "complex")) }
{
    match group_at(table, "complex") {
        Some(group) => Some(ComplexRecord {
            size: number_in(group, "size"),
            real: number_in(group, "real"),
            imag: number_in(group, "imag"),
        }),
        None => None,
    }
}

#[tactic(auto, unfolding(crate::specs::Scalars::complex_places))]
fn is_sound_complex(at: Option<ComplexRecord>) -> bool
    ensures { IsTrue result ↔ IfSome at IsSoundComplex }
{
    match at {
        Some(at) => is_record(at.size, &[(at.real, 8), (at.imag, 8)]),
        None => true,
    }
}

fn range_from(table: &Table) -> Option<RangeRecord>
    ensures { result ≡ option_map range_in (group_at (table_view table.now) (codes "range")) }
{
    match group_at(table, "range") {
        Some(group) => Some(RangeRecord {
            size: number_in(group, "size"),
            start: number_in(group, "start"),
            stop: number_in(group, "stop"),
            step: number_in(group, "step"),
            length: number_in(group, "length"),
        }),
        None => None,
    }
}

#[tactic(auto, unfolding(crate::specs::Scalars::range_places))]
fn is_sound_range(at: Option<RangeRecord>) -> bool
    ensures { IsTrue result ↔ IfSome at IsSoundRange }
{
    match at {
        Some(at) => is_record(
            at.size,
            &[(at.start, 8), (at.stop, 8), (at.step, 8), (at.length, 8)],
        ),
        None => true,
    }
}

fn slice_from(table: &Table) -> Option<SliceRecord>
    ensures { result ≡ option_map slice_in (group_at (table_view table.now) (codes "slice")) }
{
    match group_at(table, "slice") {
        Some(group) => Some(SliceRecord {
            size: number_in(group, "size"),
            start: number_in(group, "start"),
            stop: number_in(group, "stop"),
            step: number_in(group, "step"),
        }),
        None => None,
    }
}

#[tactic(auto, unfolding(crate::specs::Scalars::slice_places))]
fn is_sound_slice(at: Option<SliceRecord>) -> bool
    ensures { IsTrue result ↔ IfSome at IsSoundSlice }
{
    match at {
        Some(at) => is_record(at.size, &[(at.start, 8), (at.stop, 8), (at.step, 8)]),
        None => true,
    }
}

fn decimal_from(table: &Table) -> Option<DecimalRecord>
    ensures { result ≡ option_map decimal_in (group_at (table_view table.now) (codes "decimal")) }
{
    match group_at(table, "decimal") {
        Some(group) => Some(DecimalRecord {
            size: number_in(group, "size"),
            flags: number_in(group, "flags"),
            exponent: number_in(group, "exponent"),
            digits: number_in(group, "digits"),
            words: number_in(group, "words"),
            coefficient: number_in(group, "data"),
        }),
        None => None,
    }
}

#[tactic(auto, unfolding(crate::specs::Scalars::decimal_places))]
fn is_sound_decimal(at: Option<DecimalRecord>) -> bool
    ensures { IsTrue result ↔ IfSome at IsSoundDecimal }
{
    match at {
        Some(at) => is_record(
            at.size,
            &[
                (at.flags, 1),
                (at.exponent, 8),
                (at.digits, 8),
                (at.words, 8),
                (at.coefficient, 8),
            ],
        ),
        None => true,
    }
}

fn date_from(table: &Table) -> Option<DateRecord>
    ensures { result ≡ option_map date_in (group_at (table_view table.now) (codes "date")) }
{
    match group_at(table, "date") {
        Some(group) => Some(DateRecord {
            size: number_in(group, "size"),
            packed: number_in(group, "data"),
        }),
        None => None,
    }
}

#[tactic(auto, unfolding(crate::specs::Scalars::date_places))]
fn is_sound_date(at: Option<DateRecord>) -> bool
    ensures { IsTrue result ↔ IfSome at IsSoundDate }
{
    match at {
        Some(at) => is_record(at.size, &[(at.packed, 4)]),
        None => true,
    }
}

fn time_from(table: &Table) -> Option<TimeRecord>
    ensures { result ≡ option_map time_in (group_at (table_view table.now) (codes "time")) }
{
    match group_at(table, "time") {
        Some(group) => Some(TimeRecord {
            size: number_in(group, "size"),
            has_zone: number_in(group, "has_zone"),
            packed: number_in(group, "data"),
            fold: number_in(group, "fold"),
            zone: number_in(group, "zone"),
        }),
        None => None,
    }
}

#[tactic(auto, unfolding(crate::specs::Scalars::time_places))]
fn is_sound_time(at: Option<TimeRecord>) -> bool
    ensures { IsTrue result ↔ IfSome at IsSoundTime }
{
    match at {
        Some(at) => is_record(
            at.size,
            &[(at.has_zone, 1), (at.packed, 6), (at.fold, 1), (at.zone, 8)],
        ),
        None => true,
    }
}

fn datetime_from(table: &Table) -> Option<DatetimeRecord>
    ensures { result ≡ option_map datetime_in (group_at (table_view table.now) (codes "datetime")) }
{
    match group_at(table, "datetime") {
        Some(group) => Some(DatetimeRecord {
            size: number_in(group, "size"),
            has_zone: number_in(group, "has_zone"),
            packed: number_in(group, "data"),
            fold: number_in(group, "fold"),
            zone: number_in(group, "zone"),
        }),
        None => None,
    }
}

#[tactic(auto, unfolding(crate::specs::Scalars::datetime_places))]
fn is_sound_datetime(at: Option<DatetimeRecord>) -> bool
    ensures { IsTrue result ↔ IfSome at IsSoundDatetime }
{
    match at {
        Some(at) => is_record(
            at.size,
            &[
                (at.has_zone, 1),
                (at.packed, 10),
                (at.fold, 1),
                (at.zone, 8),
            ],
        ),
        None => true,
    }
}

fn timedelta_from(table: &Table) -> Option<TimedeltaRecord>
    ensures { result ≡ option_map timedelta_in (group_at (table_view table.now) (codes "timedelta")) }
{
    match group_at(table, "timedelta") {
        Some(group) => Some(TimedeltaRecord {
            size: number_in(group, "size"),
            days: number_in(group, "days"),
            seconds: number_in(group, "seconds"),
            microseconds: number_in(group, "microseconds"),
        }),
        None => None,
    }
}

#[tactic(auto, unfolding(crate::specs::Scalars::timedelta_places))]
fn is_sound_timedelta(at: Option<TimedeltaRecord>) -> bool
    ensures { IsTrue result ↔ IfSome at IsSoundTimedelta }
{
    match at {
        Some(at) => is_record(
            at.size,
            &[(at.days, 4), (at.seconds, 4), (at.microseconds, 4)],
        ),
        None => true,
    }
}

/// The groups that a table says.
#[tactic(auto, unfolding(crate::specs::Scalars::scalars_from))]
pub fn scalars_from(table: &Table) -> ScalarRecords
    ensures { result ≡ scalars_from (table_view table.now) }
{
    ScalarRecords {
        bytearray: bytearray_from(table),
        complex: complex_from(table),
        range: range_from(table),
        slice: slice_from(table),
        decimal: decimal_from(table),
        date: date_from(table),
        time: time_from(table),
        datetime: datetime_from(table),
        timedelta: timedelta_from(table),
    }
}

/// Whether each group that is there is sound.
pub fn are_sound_scalars(records: &ScalarRecords) -> bool
    ensures { IsTrue result ↔ AreSoundScalars records.now }
{
    is_sound_bytearray(records.bytearray)
        && is_sound_complex(records.complex)
        && is_sound_range(records.range)
        && is_sound_slice(records.slice)
        && is_sound_decimal(records.decimal)
        && is_sound_date(records.date)
        && is_sound_time(records.time)
        && is_sound_datetime(records.datetime)
        && is_sound_timedelta(records.timedelta)
}

/// No group is there.
pub fn no_scalars() -> ScalarRecords
    ensures { result ≡ no_scalars }
{
    ScalarRecords {
        bytearray: None,
        complex: None,
        range: None,
        slice: None,
        decimal: None,
        date: None,
        time: None,
        datetime: None,
        timedelta: None,
    }
}

/// Each group of the first that is there, and else of the second.
#[tactic(auto, unfolding(crate::specs::Scalars::joined_scalars))]
pub fn joined_scalars(one: &ScalarRecords, other: &ScalarRecords) -> ScalarRecords
    ensures { result ≡ joined_scalars one.now other.now }
{
    ScalarRecords {
        bytearray: one.bytearray.or(other.bytearray),
        complex: one.complex.or(other.complex),
        range: one.range.or(other.range),
        slice: one.slice.or(other.slice),
        decimal: one.decimal.or(other.decimal),
        date: one.date.or(other.date),
        time: one.time.or(other.time),
        datetime: one.datetime.or(other.datetime),
        timedelta: one.timedelta.or(other.timedelta),
    }
}

/// Whether a group is there in both.
#[tactic(auto, unfolding(crate::specs::Scalars::share_scalars))]
pub fn share_scalars(one: &ScalarRecords, other: &ScalarRecords) -> bool
    ensures { result ≡ share_scalars one.now other.now }
{
    any_both(
        &[
            one.bytearray.is_some(),
            one.complex.is_some(),
            one.range.is_some(),
            one.slice.is_some(),
            one.decimal.is_some(),
            one.date.is_some(),
            one.time.is_some(),
            one.datetime.is_some(),
            one.timedelta.is_some(),
        ],
        &[
            other.bytearray.is_some(),
            other.complex.is_some(),
            other.range.is_some(),
            other.slice.is_some(),
            other.decimal.is_some(),
            other.date.is_some(),
            other.time.is_some(),
            other.datetime.is_some(),
            other.timedelta.is_some(),
        ],
    )
}
