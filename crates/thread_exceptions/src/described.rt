//! Where the parts of threads, items and exceptions stand, by a layout and the records beside it.
ghost use Rattle.std.specs.Prelude.{◌≡◌, IfSome};
ghost use Rattle.thread_exceptions.specs.Described.{ArePlaces, exception_of, group_of, raised_by, unchecked_of};
ghost use Rattle.thread_exceptions.specs.Places.{IsSound};

use crate::{ExceptionPlaces, GroupPlaces, Places, RaisedPlaces, is_sound};
use py_fields::Layout;
use py_records::{ExceptionGroupRecord, ExceptionRecord, RaisedPartsRecord, RaisedRecord, Records};

/// How a thread names what is raised.
fn raised_by(raised: Option<RaisedRecord>, parts: Option<RaisedPartsRecord>) -> Option<RaisedPlaces>
    ensures { result ≡ raised_by raised parts }
{
    match raised {
        Some(at) => Some(RaisedPlaces::Exception { at: at.exception }),
        None => match parts {
            Some(at) => Some(RaisedPlaces::Parts {
                klass: at.klass,
                value: at.value,
            }),
            None => None,
        },
    }
}

/// Groups, where a version has them.
fn group_of(layout: &Layout, group: Option<ExceptionGroupRecord>) -> Option<GroupPlaces>
    ensures { result ≡ group_of layout.now group }
{
    match group {
        Some(at) => Some(GroupPlaces {
            members: at.excs,
            count: layout.tuple.count,
            items: layout.tuple.at,
        }),
        None => None,
    }
}

/// An exception.
fn exception_of(exception: Option<ExceptionRecord>) -> Option<ExceptionPlaces>
    ensures { result ≡ exception_of exception }
{
    match exception {
        Some(at) => Some(ExceptionPlaces {
            size: at.size,
            dict: at.dict,
            args: at.args,
            traceback: at.traceback,
            context: at.context,
            cause: at.cause,
            suppress_context: at.suppress_context,
        }),
        None => None,
    }
}

/// The places as they are described; none where a group that is needed is not.
#[tactic(auto, unfolding(crate::specs::Described::unchecked_of))]
fn unchecked_of(layout: &Layout, records: &Records) -> Option<Places>
    ensures { result ≡ unchecked_of layout.now records.now }
{
    let told = &records.exceptions;
    let klass = records.types.klass?;
    let raised = raised_by(told.raised, told.raised_parts)?;
    let handled = told.handled?;
    let item = told.item?;
    let inside = records.coroutines.generator_handled?;
    let exception = exception_of(told.exception)?;
    Some(Places {
        klass: layout.object.klass,
        flags: layout.klass.flags,
        name: layout.klass.name,
        base: klass.base,
        raised,
        newest: handled.newest,
        oldest: handled.oldest,
        inside: inside.item,
        value: item.value,
        previous: item.previous,
        exception,
        group: group_of(layout, told.exception_group),
    })
}

/// Where the parts of threads, items and exceptions stand, by a layout and the records of its version; none where a
/// group that is needed is not described, or what is read of a record would not lie inside it.
///
/// The groups are `klass`, `exception`, `item`, `handled`, `generator_handled`, and `raised` or `raised_parts`; with
/// `exception_group` the members of groups are told.
pub fn places_of(layout: &Layout, records: &Records) -> Option<Places>
    ensures are { ArePlaces layout.now records.now result }
    ensures sound { IfSome result IsSound }
{
    let places = unchecked_of(layout, records)?;
    let is = is_sound(&places);
    if is { Some(places) } else { None }
}
