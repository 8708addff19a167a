use ca_reader::form::{Form, Shape};
use ca_value::builtin::direct::{apply_one, apply_two, assoc_one, conj_one};
use ca_value::builtin::{Builtin, apply_builtin};
use ca_value::fault::{ApplyError, ValueFault};
use ca_value::memory::OutOfMemory;
use ca_value::value::{Items, PortId, Value};
use std::alloc::Global;

/// Why a form comes to no value.
#[derive(Drop)]
pub enum Refusal {
    /// A builtin's fault.
    Fault(ValueFault),
    /// Another number of arguments than the builtin takes.
    Arity,
    /// No builtin or word of this name, or no name at all.
    Unknown,
    /// The builtin answered otherwise where its operands were passed by themselves.
    Differs,
    OutOfMemory,
}

impl From<OutOfMemory> for Refusal {
    fn from(_: OutOfMemory) -> Refusal {
        Refusal::OutOfMemory
    }
}

impl From<ApplyError> for Refusal {
    fn from(error: ApplyError) -> Refusal {
        match error {
            ApplyError::Fault(fault) => Refusal::Fault(fault),
            ApplyError::OutOfMemory => Refusal::OutOfMemory,
        }
    }
}

/// The value that the form comes to: a list is a call, all else stands for itself.
#[cycle(value)]
pub fn value_of(alloc: Global, form: &Form) -> Result<Value, Refusal> {
    match &form.shape {
        Shape::Nil => Ok(Value::Nil),
        Shape::Bool(b) => Ok(Value::Bool(*b)),
        Shape::Int(n) => Ok(Value::Int(*n)),
        Shape::Text(text) => Ok(Value::text(alloc, text.copy(alloc)?)?),
        Shape::Key(text) => Ok(Value::key(alloc, text.copy(alloc)?)?),
        Shape::Symbol(_) => Err(Refusal::Unknown),
        Shape::Vector(items) => Ok(Value::vector(alloc, values_of(alloc, items.as_slice(), 0)?)?),
        Shape::Map(items) => {
            let items = values_of(alloc, items.as_slice(), 0)?;
            apply(alloc, Builtin::HashMap, items)
        }
        Shape::List(forms) => called(alloc, forms.as_slice()),
    }
}

// The values of the forms but the first so many, in order.
#[cycle(value)]
fn values_of(alloc: Global, forms: &[Form], skipped: usize) -> Result<Items, Refusal> {
    let mut values = Vec::new(alloc);
    for (i, form) in forms.iter().enumerate() {
        if i < skipped {
            continue;
        }
        let value = value_of(alloc, form)?;
        if values.push(value).is_err() {
            return Err(Refusal::OutOfMemory);
        }
    }
    Ok(Items::from_vec(values))
}

// The value of a call: the first form names what is called, the others are its operands.
#[cycle(value)]
fn called(alloc: Global, forms: &[Form]) -> Result<Value, Refusal> {
    let args = values_of(alloc, forms, 1)?;
    let Some(head) = forms.first() else {
        return Err(Refusal::Unknown);
    };
    match &head.shape {
        Shape::Symbol(name) => call(alloc, name.as_slice(), args),
        _ => Err(Refusal::Unknown),
    }
}

// The value of the name at these operands.
fn call(alloc: Global, name: &[u8], args: Items) -> Result<Value, Refusal> {
    match builtin_of(name) {
        Some(builtin) => compare(alloc, builtin, args),
        None => word(alloc, name, args.get(0).unwrap_or(&Value::Nil)),
    }
}

// The builtin of the name, also one that no script can name.
fn builtin_of(name: &[u8]) -> Option<Builtin> {
    if name == "part".as_bytes() {
        return Some(Builtin::Part);
    }
    if name == "items".as_bytes() {
        return Some(Builtin::Items);
    }
    if name == "worker-count".as_bytes() {
        return Some(Builtin::WorkerCount);
    }
    Builtin::named(name)
}

// What the rows' own words make of a value: a port, its plain text, its weight, its depth.
fn word(alloc: Global, name: &[u8], value: &Value) -> Result<Value, Refusal> {
    if name == "port".as_bytes() {
        return port(value);
    }
    if name == "plain".as_bytes() {
        return Ok(Value::text(alloc, value.print_plain(alloc)?)?);
    }
    if name == "weight".as_bytes() && value.room_after(u64::MAX).is_some() {
        return Ok(Value::Int(i64::try_from(value.weight()).unwrap_or(0)));
    }
    if name == "depth".as_bytes() && value.is_within_depth(u64::MAX) {
        return Ok(Value::Int(i64::try_from(value.depth()).unwrap_or(0)));
    }
    Err(Refusal::Unknown)
}

fn port(value: &Value) -> Result<Value, Refusal> {
    match value {
        Value::Int(n) => Ok(Value::Port(PortId {
            n: n.unsigned_abs(),
        })),
        _ => Err(Refusal::Unknown),
    }
}

// What the builtin answers at the list of operands, where it answers the same at the operands by themselves.
fn compare(alloc: Global, builtin: Builtin, args: Items) -> Result<Value, Refusal> {
    let direct = directly(alloc, builtin, args.as_slice())?;
    let value = apply(alloc, builtin, args);
    match direct {
        None => value,
        Some(other) => same(value, other),
    }
}

// The one answer of two, which are the same value or the same refusal.
fn same(value: Result<Value, Refusal>, other: Result<Value, ApplyError>) -> Result<Value, Refusal> {
    match (value, other) {
        (Ok(value), Ok(other)) => {
            if value.equal(&other) {
                Ok(value)
            } else {
                Err(Refusal::Differs)
            }
        }
        (Err(Refusal::Fault(fault)), Err(ApplyError::Fault(other))) => {
            if fault == other {
                Err(Refusal::Fault(fault))
            } else {
                Err(Refusal::Differs)
            }
        }
        _ => Err(Refusal::Differs),
    }
}

// What the builtin answers at so few operands with no list of them, if there is such a call.
fn directly(
    alloc: Global,
    builtin: Builtin,
    args: &[Value],
) -> Result<Option<Result<Value, ApplyError>>, Refusal> {
    match args {
        [a] if builtin.admits(1) => Ok(Some(apply_one(alloc, builtin, a))),
        [a, b] if builtin == Builtin::Conj => {
            let (a, b) = (a.copy(alloc)?, b.copy(alloc)?);
            Ok(Some(conj_one(alloc, a, b)))
        }
        [a, b] if builtin.admits(2) => Ok(Some(apply_two(alloc, builtin, a, b))),
        [a, b, c] if builtin == Builtin::Assoc => {
            let (a, b, c) = (a.copy(alloc)?, b.copy(alloc)?, c.copy(alloc)?);
            Ok(Some(assoc_one(alloc, a, b, c)))
        }
        _ => Ok(None),
    }
}

// What the builtin answers at the list of operands.
fn apply(alloc: Global, builtin: Builtin, args: Items) -> Result<Value, Refusal> {
    if !builtin.admits(args.len()) {
        return Err(Refusal::Arity);
    }
    Ok(apply_builtin(alloc, builtin, args)?)
}
