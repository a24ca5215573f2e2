//! The texts of orders and answers in the transcript's lines, and how texts are quoted there.
//!
//! The contract that the layer above uses: [`push_order`] and [`push_answer`] add exactly the
//! text that `order_text` and `answer_text` of `specs/OrderText.antt` give, a row for each order,
//! and [`push_quoted`], [`push_plain`] and [`push_number`] a text in quotes, a name as it stands and a number. [`Routine`] has the
//! words of orders, and [`relation_name`] and the three behind it those of arguments, with which scripts are read too. Want of memory is the one free answer. It stands on `vh_base` for orders, answers and words.
#![tactic(auto)]

mod order_text;
mod quoted;
mod routine;

pub use order_text::{
    format_name, mode_name, property_name, push_answer, push_number, push_order, relation_name,
};
pub use quoted::{push_plain, push_quoted};
pub use routine::Routine;
