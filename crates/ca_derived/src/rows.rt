ghost use Rattle.std.specs.Prelude.{◌≡◌, IfOk};
ghost use Rattle.ca_value.specs.Seq.{list};
ghost use Rattle.ca_reader.specs.View.{form_tree, form_trees};
ghost use Rattle.ca_derived.specs.Rows.{row_reduce, row_into, row_of_take, row_split};

use crate::name::Name;
use crate::template::{Token, behind, fill, headed, nothing, only};
use ca_reader::form::{Form, Forms};
use ca_term::place::Place;
use ca_value::memory::OutOfMemory;
use std::alloc::Global;

/// The list of a `reduce`, of a function, an initial value and a channel.
pub fn reduce(alloc: Global, place: Place, parts: Forms) -> Result<Form, OutOfMemory>
    ensures { IfOk result (λ f. form_tree f ≡ row_reduce place (form_trees (list parts))) }
{
    if parts.len() == 3 {
        let draft = fill(alloc, place, &REDUCE, parts)?;
        Ok(only(draft, place))
    } else {
        Ok(nothing(place))
    }
}

/// The list of an `into`, of a collection and a channel: that of a `reduce` by `conj`.
pub fn into(alloc: Global, place: Place, parts: Forms) -> Result<Form, OutOfMemory>
    ensures { IfOk result (λ f. form_tree f ≡ row_into place (form_trees (list parts))) }
{
    let parts = behind(alloc, place, Name::Conj, parts)?;
    reduce(alloc, place, parts)
}

/// The list of a `split`, of a function and a channel.
pub fn split(alloc: Global, place: Place, parts: Forms) -> Result<Form, OutOfMemory>
    ensures { IfOk result (λ f. form_tree f ≡ row_split place (form_trees (list parts))) }
{
    if parts.len() == 2 {
        let draft = fill(alloc, place, &SPLIT, parts)?;
        Ok(only(draft, place))
    } else {
        Ok(nothing(place))
    }
}

/// The list of a `take`, of a number, a channel and, for the channel that it makes, what `chan` is given.
pub fn take(alloc: Global, place: Place, parts: Forms) -> Result<Form, OutOfMemory>
    ensures { IfOk result (λ f. form_tree f ≡ row_of_take place (form_trees (list parts))) }
{
    if parts.len() == 2 || parts.len() == 3 {
        let mut given = parts.into_vec();
        let buffer = given.split_off(2)?;
        let made = headed(alloc, place, Name::Chan, Forms::from_vec(buffer))?;
        given.push(made)?;
        let draft = fill(alloc, place, &TAKE, Forms::from_vec(given))?;
        Ok(only(draft, place))
    } else {
        Ok(nothing(place))
    }
}

// (let [#initial $1 #channel $2] (go-loop [#result #initial] (let [#value (<! #channel)] (if (nil? #value) #result (recur ($0 #result #value))))))
const REDUCE: [Token; 31] = [
    Token::Named(Name::Let),
    Token::Named(Name::Initial),
    Token::Given(1),
    Token::Named(Name::Channel),
    Token::Given(2),
    Token::Square(4),
    Token::Named(Name::GoLoop),
    Token::Named(Name::Result),
    Token::Named(Name::Initial),
    Token::Square(2),
    Token::Named(Name::Let),
    Token::Named(Name::Value),
    Token::Named(Name::TakeFrom),
    Token::Named(Name::Channel),
    Token::Round(2),
    Token::Square(2),
    Token::Named(Name::If),
    Token::Named(Name::IsNil),
    Token::Named(Name::Value),
    Token::Round(2),
    Token::Named(Name::Result),
    Token::Named(Name::Recur),
    Token::Given(0),
    Token::Named(Name::Result),
    Token::Named(Name::Value),
    Token::Round(3),
    Token::Round(2),
    Token::Round(4),
    Token::Round(3),
    Token::Round(3),
    Token::Round(3),
];

// (let [#bound $0 #channel $1 #out $2] (go (loop [#count 0] (when (< #count #bound) (if-some [#value (<! #channel)] (do (>! #out #value) (recur (inc #count))) nil))) (close! #out)) #out)
const TAKE: [Token; 45] = [
    Token::Named(Name::Let),
    Token::Named(Name::Bound),
    Token::Given(0),
    Token::Named(Name::Channel),
    Token::Given(1),
    Token::Named(Name::Out),
    Token::Given(2),
    Token::Square(6),
    Token::Named(Name::Go),
    Token::Named(Name::Loop),
    Token::Named(Name::Count),
    Token::Number(0),
    Token::Square(2),
    Token::Named(Name::When),
    Token::Named(Name::Less),
    Token::Named(Name::Count),
    Token::Named(Name::Bound),
    Token::Round(3),
    Token::Named(Name::IfSome),
    Token::Named(Name::Value),
    Token::Named(Name::TakeFrom),
    Token::Named(Name::Channel),
    Token::Round(2),
    Token::Square(2),
    Token::Named(Name::Do),
    Token::Named(Name::PutInto),
    Token::Named(Name::Out),
    Token::Named(Name::Value),
    Token::Round(3),
    Token::Named(Name::Recur),
    Token::Named(Name::Inc),
    Token::Named(Name::Count),
    Token::Round(2),
    Token::Round(2),
    Token::Round(3),
    Token::Nothing,
    Token::Round(4),
    Token::Round(3),
    Token::Round(3),
    Token::Named(Name::Close),
    Token::Named(Name::Out),
    Token::Round(2),
    Token::Round(3),
    Token::Named(Name::Out),
    Token::Round(4),
];

// (let [#channel $1 #true (chan) #false (chan)] (go-loop [] (let [#value (<! #channel)] (if (nil? #value) (do (close! #true) (close! #false)) (if (>! (if ($0 #value) #true #false) #value) (recur) nil)))) [#true #false])
const SPLIT: [Token; 52] = [
    Token::Named(Name::Let),
    Token::Named(Name::Channel),
    Token::Given(1),
    Token::Named(Name::Yes),
    Token::Named(Name::Chan),
    Token::Round(1),
    Token::Named(Name::No),
    Token::Named(Name::Chan),
    Token::Round(1),
    Token::Square(6),
    Token::Named(Name::GoLoop),
    Token::Square(0),
    Token::Named(Name::Let),
    Token::Named(Name::Value),
    Token::Named(Name::TakeFrom),
    Token::Named(Name::Channel),
    Token::Round(2),
    Token::Square(2),
    Token::Named(Name::If),
    Token::Named(Name::IsNil),
    Token::Named(Name::Value),
    Token::Round(2),
    Token::Named(Name::Do),
    Token::Named(Name::Close),
    Token::Named(Name::Yes),
    Token::Round(2),
    Token::Named(Name::Close),
    Token::Named(Name::No),
    Token::Round(2),
    Token::Round(3),
    Token::Named(Name::If),
    Token::Named(Name::PutInto),
    Token::Named(Name::If),
    Token::Given(0),
    Token::Named(Name::Value),
    Token::Round(2),
    Token::Named(Name::Yes),
    Token::Named(Name::No),
    Token::Round(4),
    Token::Named(Name::Value),
    Token::Round(3),
    Token::Named(Name::Recur),
    Token::Round(1),
    Token::Nothing,
    Token::Round(4),
    Token::Round(4),
    Token::Round(3),
    Token::Round(3),
    Token::Named(Name::Yes),
    Token::Named(Name::No),
    Token::Square(2),
    Token::Round(4),
];
