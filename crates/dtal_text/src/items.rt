//! Values as items of lists.

ghost use Rattle.proof_lines.specs.Reading.{one_line};
ghost use Rattle.dtal_text.specs.Places.{place};
ghost use Rattle.dtal_text.specs.TypeReading.{whole_form, one_type};

use crate::places::read_place;
use crate::types::read_ty;
use proof_lines::{Line, read_form, read_line};
use state_types::Ty;
use std::alloc::Global;
use xan_lin::Form;
use xan_read::{Production, ReadError};

/// Forms.
#[derive(Drop)]
pub(crate) struct FormItem;

impl Production for FormItem {
    type Value = Form;

    ghost reader = { λ _. whole_form };

    fn read<'a>(&self, alloc: Global, bytes: &'a [u8]) -> Result<(Form, &'a [u8]), ReadError> {
        let _ = alloc;
        Ok(read_form(bytes)?)
    }
}

/// Types.
#[derive(Drop)]
pub(crate) struct TyItem;

impl Production for TyItem {
    type Value = Ty;

    ghost reader = { λ _. one_type };

    fn read<'a>(&self, alloc: Global, bytes: &'a [u8]) -> Result<(Ty, &'a [u8]), ReadError> {
        let _ = alloc;
        Ok(read_ty(bytes)?)
    }
}

/// Places.
#[derive(Drop)]
pub(crate) struct PlaceItem;

impl Production for PlaceItem {
    type Value = u8;

    ghost reader = { λ _. place };

    fn read<'a>(&self, alloc: Global, bytes: &'a [u8]) -> Result<(u8, &'a [u8]), ReadError> {
        let _ = alloc;
        Ok(read_place(bytes)?)
    }
}

/// Lines of a proof.
#[derive(Drop)]
pub(crate) struct LineItem;

impl Production for LineItem {
    type Value = Line;

    ghost reader = { λ _. one_line };

    fn read<'a>(&self, alloc: Global, bytes: &'a [u8]) -> Result<(Line, &'a [u8]), ReadError> {
        let _ = alloc;
        Ok(read_line(bytes)?)
    }
}
