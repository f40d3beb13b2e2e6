// The kinds of the eight variables of an assertion or a request, as far as they are settled.
#![tactic(auto)]

ghost use Rattle.std.specs.Prelude.{◌≡◌};
ghost use Rattle.kinds.specs.Cells.{nothing, renamed, relabel, cell_of, is_counted, merged, counted, alike, numbered};

use limits::{Kind, VARIABLES};

// What stands in a place: a variable, or anything of a kind.
#[derive(Clone, Copy, PartialEq, Eq)]
pub enum Term {
    Variable(usize),
    Any(Kind),
}

// What is known of a variable's kind: it is in a class, settled, or in a class of days or quantities. A class goes by the variable that leads it.
#[derive(Clone, Copy, PartialEq, Eq)]
pub enum Cell {
    Leads(u8),
    Settled(Kind),
    Counted(u8),
}

// A cell for each variable.
pub type Cells = [Cell; VARIABLES];

// Nothing is settled yet.
pub fn nothing() -> Cells
    ensures { result ≡ nothing }
{
    [0, 1, 2, 3, 4, 5, 6, 7].map(Cell::Leads)
}

// A cell, after `from` has become `to`.
fn renamed(cell: Cell, from: Cell, to: Cell) -> Cell
    ensures { result ≡ renamed from to cell }
{
    if cell == from { to } else { cell }
}

// Every cell `from` becomes `to`.
fn relabel(cells: Cells, from: Cell, to: Cell) -> Cells
    ensures { result ≡ relabel cells from to }
{
    cells.map(|cell| renamed(cell, from, to))
}

// The cell of a term.
fn cell_of(cells: Cells, term: Term) -> Option<Cell>
    ensures { result ≡ cell_of cells term }
{
    match term {
        Term::Variable(v) => cells.get(v).copied(),
        Term::Any(kind) => Some(Cell::Settled(kind)),
    }
}

// A cell of days or quantities.
fn is_counted(cell: Cell) -> bool
    ensures { result ≡ is_counted cell }
{
    match cell {
        Cell::Leads(_) => false,
        Cell::Settled(kind) => matches!(kind, Kind::Day | Kind::Quantity),
        Cell::Counted(_) => true,
    }
}

// Two cells become one. In place, as `alike` is.
#[inline(always)]
fn merged(cells: Cells, one: Cell, other: Cell) -> Option<Cells>
    ensures { result ≡ merged cells one other }
{
    match (one, other) {
        _ if one == other => Some(cells),
        (Cell::Leads(_), _) => Some(relabel(cells, one, other)),
        (_, Cell::Leads(_)) => Some(relabel(cells, other, one)),
        (Cell::Counted(_), _) if is_counted(other) => Some(relabel(cells, one, other)),
        (_, Cell::Counted(_)) if is_counted(one) => Some(relabel(cells, other, one)),
        _ => None,
    }
}

// A cell becomes one of days or quantities.
fn counted(cells: Cells, cell: Cell) -> Option<Cells>
    ensures { result ≡ counted cells cell }
{
    match cell {
        Cell::Leads(v) => Some(relabel(cells, cell, Cell::Counted(v))),
        _ if is_counted(cell) => Some(cells),
        _ => None,
    }
}

// Two terms of one kind. In place, since the reader of a policy calls it for each term, and the cells then stay in registers.
#[inline(always)]
pub fn alike(cells: Cells, left: Term, right: Term) -> Option<Cells>
    ensures { result ≡ alike cells left right }
{
    merged(cells, cell_of(cells, left)?, cell_of(cells, right)?)
}

// A day or a quantity.
pub fn numbered(cells: Cells, term: Term) -> Option<Cells>
    ensures { result ≡ numbered cells term }
{
    counted(cells, cell_of(cells, term)?)
}
