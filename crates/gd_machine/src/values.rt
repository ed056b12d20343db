// Values of sums, and the texts that are printed.
ghost use Rattle.std.specs.Prelude.{◌≡◌, ◌++◌, ◌*ℤ◌, IfOk, codes, string_bytes};
ghost use Rattle.std.specs.List.{flat_map};
ghost use Rattle.std.specs.Int.{int_wrap, w64};
ghost use Rattle.gd_syntax.specs.FirstScript.{product_of, sum_of, item_of, print_of};
ghost use Rattle.gd_syntax.specs.FirstRun.{product_value, sum_value, joined_value, item_text, print_text};

use gd_syntax::{FirstItem, FirstPrint, FirstProduct, FirstSum, SumOp};
use std::alloc::AllocError;
use std::fmt::Write;

fn times(value: i64, factor: i64) -> i64
    ensures { result ≡ int_wrap w64 (value *ℤ factor) }
{
    value.wrapping_mul(factor)
}

#[tactic(auto, using(std::proofs::lemmas::List::Sums::fold_more))]
fn product_value(product: &FirstProduct) -> i64
    ensures { result ≡ product_value (product_of product.now) }
{
    let mut value = product.first;
    for factor in &product.others {
        value = times(value, *factor);
    }
    value
}

fn joined_value(value: i64, op: SumOp, next: i64) -> i64
    ensures { result ≡ joined_value value op next }
{
    match op {
        SumOp::Add => value.wrapping_add(next),
        SumOp::Sub => value.wrapping_sub(next),
    }
}

#[tactic(auto, using(std::proofs::lemmas::List::Sums::fold_more))]
fn sum_value(sum: &FirstSum) -> i64
    ensures { result ≡ sum_value (sum_of sum.now) }
{
    let mut value = product_value(&sum.first);
    for (op, product) in &sum.others {
        value = joined_value(value, *op, product_value(product));
    }
    value
}

fn push_item(text: &mut String, item: &FirstItem) -> Result<(), AllocError>
    ensures { IfOk result (λ _. string_bytes text.new ≡ string_bytes text.old ++ item_text (item_of item.now)) }
{
    match item {
        FirstItem::Text(content) => text.push_str(content.as_str()),
        FirstItem::Sum(sum) => {
            let value = sum_value(sum);
            write!(text, "{value}")
        }
    }
}

/// Appends what a line prints.
pub fn push_print(text: &mut String, print: &FirstPrint) -> Result<(), AllocError>
    ensures { IfOk result (λ _. string_bytes text.new ≡ string_bytes text.old ++ print_text (print_of print.now)) }
{
    for item in &print.items {
        push_item(text, item)?;
    }
    text.push('\n')
}
