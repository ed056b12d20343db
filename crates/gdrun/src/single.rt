// The machine's script of a file that is taken, from its tree.
ghost use Rattle.std.specs.Prelude.{◌≡◌, ◌++◌, ◌∷◌, [], IfOk, OnOk, map, encode_utf8_all};
ghost use Rattle.std.specs.List.{flat_map};
ghost use Rattle.gd_syntax.specs.FirstScript.{item_of as read_item, print_of, product_of as read_product, script_of, sum_of as read_sum};
ghost use Rattle.gd_syntax.specs.FirstTree.{text_item};
ghost use Rattle.gdrun.specs.Single as spec;

use gd_syntax::{
    Expr, FirstItem, FirstPrint, FirstProduct, FirstScript, FirstSum, Literal, Member, Place,
    Script, Simple, Stmt, SumOp, Text, TreeOp,
};
use std::alloc::{AllocError, Global};

fn literal_number(value: &Literal) -> i64
    ensures { result ≡ spec.literal_number value.now }
{
    match value {
        Literal::Int(n) => *n,
        _ => 0,
    }
}

/// A whole number.
#[tactic(auto, using(crate::proofs::Chains::chain_laws))]
fn number(expr: &Expr) -> i64
    ensures { result ≡ (spec.chain_of expr.now).number }
{
    match expr {
        Expr::Literal(_, value) => literal_number(value),
        _ => 0,
    }
}

fn one_number(alloc: Global, n: i64) -> FirstProduct
    ensures { read_product result ≡ spec.one_number n }
{
    FirstProduct {
        first: n,
        others: Vec::new(alloc),
    }
}

fn product_with(
    alloc: Global,
    op: TreeOp,
    left: FirstProduct,
    n: i64,
) -> Result<FirstProduct, AllocError>
    ensures { IfOk result (λ p. read_product p ≡ spec.product_by op (read_product left) n) }
{
    match op {
        TreeOp::Mul => {
            let mut product = left;
            product.others.push(n)?;
            Ok(product)
        }
        _ => Ok(one_number(alloc, 0)),
    }
}

/// Factors from left to right.
#[tactic(auto, using(crate::proofs::Chains::chain_laws))]
fn product(alloc: Global, expr: &Expr) -> Result<FirstProduct, AllocError>
    ensures { IfOk result (λ p. read_product p ≡ (spec.chain_of expr.now).product) }
{
    match expr {
        Expr::Literal(_, value) => Ok(one_number(alloc, literal_number(value))),
        Expr::Binary {
            op,
            left,
            right,
            ..
        } => {
            let factors = product(alloc, left.get())?;
            product_with(alloc, *op, factors, number(right.get()))
        }
        _ => Ok(one_number(alloc, 0)),
    }
}

fn sign_of(op: TreeOp) -> Option<SumOp>
    ensures { result ≡ spec.sign_of op }
{
    match op {
        TreeOp::Add => Some(SumOp::Add),
        TreeOp::Sub => Some(SumOp::Sub),
        _ => None,
    }
}

fn one_product(alloc: Global, first: FirstProduct) -> FirstSum
    ensures { read_sum result ≡ spec.one_product (read_product first) }
{
    FirstSum {
        first,
        others: Vec::new(alloc),
    }
}

fn with_term(sum: FirstSum, sign: SumOp, product: FirstProduct) -> Result<FirstSum, AllocError>
    ensures { IfOk result (λ s. read_sum s ≡ spec.with_term (read_sum sum) sign (read_product product)) }
{
    let mut sum = sum;
    sum.others.push((sign, product))?;
    Ok(sum)
}

/// Terms from left to right.
#[tactic(auto, using(crate::proofs::Chains::chain_laws))]
fn sum(alloc: Global, expr: &Expr) -> Result<FirstSum, AllocError>
    ensures { IfOk result (λ s. read_sum s ≡ (spec.chain_of expr.now).sum) }
{
    match expr {
        Expr::Literal(_, value) => Ok(one_product(alloc, one_number(alloc, literal_number(value)))),
        Expr::Binary {
            op,
            left,
            right,
            ..
        } => match sign_of(*op) {
            Some(sign) => {
                let terms = sum(alloc, left.get())?;
                let term = product(alloc, right.get())?;
                with_term(terms, sign, term)
            }
            None => {
                let factors = product(alloc, left.get())?;
                let all = product_with(alloc, *op, factors, number(right.get()))?;
                Ok(one_product(alloc, all))
            }
        },
        _ => Ok(one_product(alloc, one_number(alloc, 0))),
    }
}

fn text_item(alloc: Global, text: &Text) -> Result<FirstItem, AllocError>
    ensures { IfOk result (λ i. read_item i ≡ text_item (encode_utf8_all text.now)) }
{
    Ok(FirstItem::Text(String::from_str(alloc, text.as_str())?))
}

/// An argument.
fn item(alloc: Global, expr: &Expr) -> Result<FirstItem, AllocError>
    ensures { IfOk result (λ i. read_item i ≡ spec.item_of expr.now) }
{
    match expr {
        Expr::Literal(_, Literal::Text(text)) => text_item(alloc, text),
        _ => Ok(FirstItem::Sum(sum(alloc, expr)?)),
    }
}

fn items(alloc: Global, args: &[Expr]) -> Result<Vec<FirstItem>, AllocError>
    ensures { IfOk result (λ all. map read_item all.items ≡ map spec.item_of args.now) }
{
    let mut all = Vec::new(alloc);
    for arg in args {
        all.push(item(alloc, arg)?)?;
    }
    Ok(all)
}

/// Whether `print` is called.
fn is_print(expr: &Expr) -> bool
    ensures { result ≡ spec.is_print expr.now }
{
    match expr {
        Expr::Name(_, name) => name.is_word("print"),
        _ => false,
    }
}

/// The line of an expression, if it is a call of `print`.
fn push_expression(
    alloc: Global,
    prints: &mut Vec<FirstPrint>,
    place: Place,
    expr: &Expr,
) -> Result<(), AllocError>
    ensures { OnOk result (map print_of prints.new.items ≡ map print_of prints.old.items ++ spec.expression_lines place expr.now) }
{
    match expr {
        Expr::Call(_, called, args) if is_print(called.get()) => {
            let items = items(alloc, args.as_slice())?;
            prints.push(FirstPrint {
                line: place.line,
                items,
            })?;
            Ok(())
        }
        _ => Ok(()),
    }
}

fn push_simple(
    alloc: Global,
    prints: &mut Vec<FirstPrint>,
    simple: &Simple,
) -> Result<(), AllocError>
    ensures { OnOk result (map print_of prints.new.items ≡ map print_of prints.old.items ++ spec.simple_lines simple.now) }
{
    match simple {
        Simple::Expr(place, expr) => push_expression(alloc, prints, *place, expr),
        _ => Ok(()),
    }
}

fn push_line(alloc: Global, prints: &mut Vec<FirstPrint>, all: &[Simple]) -> Result<(), AllocError>
    ensures { OnOk result (map print_of prints.new.items ≡ map print_of prints.old.items ++ flat_map spec.simple_lines all.now) }
{
    for simple in all {
        push_simple(alloc, prints, simple)?;
    }
    Ok(())
}

fn push_statement(
    alloc: Global,
    prints: &mut Vec<FirstPrint>,
    statement: &Stmt,
) -> Result<(), AllocError>
    ensures { OnOk result (map print_of prints.new.items ≡ map print_of prints.old.items ++ spec.statement_lines statement.now) }
{
    match statement {
        Stmt::Line(_, all) => push_line(alloc, prints, all.as_slice()),
        _ => Ok(()),
    }
}

fn push_block(alloc: Global, prints: &mut Vec<FirstPrint>, body: &[Stmt]) -> Result<(), AllocError>
    ensures { OnOk result (map print_of prints.new.items ≡ map print_of prints.old.items ++ flat_map spec.statement_lines body.now) }
{
    for statement in body {
        push_statement(alloc, prints, statement)?;
    }
    Ok(())
}

fn push_member(
    alloc: Global,
    prints: &mut Vec<FirstPrint>,
    member: &Member,
) -> Result<(), AllocError>
    ensures { OnOk result (map print_of prints.new.items ≡ map print_of prints.old.items ++ spec.member_lines member.now) }
{
    match member {
        Member::Func(func) => push_block(alloc, prints, func.body.as_slice()),
        _ => Ok(()),
    }
}

/// The script of a file that is taken: the lines of its one function.
pub fn script_of_tree(alloc: Global, tree: &Script) -> Result<FirstScript, AllocError>
    ensures { IfOk result (λ s. script_of s ≡ spec.script_of_tree tree.now) }
{
    let mut prints = Vec::new(alloc);
    for member in tree.members.as_slice() {
        push_member(alloc, &mut prints, member)?;
    }
    Ok(FirstScript { prints })
}
