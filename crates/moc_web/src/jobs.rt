//! The jobs on texts of coverages.
ghost use Rattle.moc_conversion.specs.Combining.{CombinesTextsOf, FailsCombining};
ghost use Rattle.moc_conversion.specs.Conversion.{FailsText, IsChange, IsConversion, IsPictureOf, MakesFromText};
ghost use Rattle.moc_web.specs.Jobs.{Draws, Examines, FailsDrawing, Measures, cell_with_numbers};
ghost use Rattle.moc_web.specs.Numbers.{change_with_number, choice_with_number, format_with_number};
ghost use Rattle.moc_web.specs.Numbers.{operation_with_number};
ghost use Rattle.moc_web.specs.Results.{ForMeaning, Outputs};

use crate::choices::{change_of, choice_of, format_of, operation_of};
use crate::examining::examine;
use crate::job_result::{JobResult, finish};
use crate::measuring::{cell_of, measure};
use moc_conversion::{change_text, combine_texts, convert_text, draw_texts};
use moc_forms::PictureNames;
use std::alloc::Global;

/// Writes the statistics of a text, as `moc describe` does, and then its picture, as `moc draw` does.
#[unsafe(no_mangle)]
#[tactic(auto, using(crate::proofs::Outputs::outputs))]
pub extern "C" fn web_examine(
    alloc: Global,
    format: u32,
    text: &[u8],
    buffer: &mut [u8],
) -> JobResult
    ensures { ForMeaning (choice_with_number format)
        (λ choice. Outputs (MakesFromText Examines choice text.now) (FailsText choice text.now))
        buffer.old buffer.new result }
{
    let Some(choice) = choice_of(format) else {
        return JobResult::bad_number();
    };
    finish(alloc, examine(alloc, choice, text), buffer)
}

/// Writes the picture of a text, or of the two texts that its first semicolon separates.
#[unsafe(no_mangle)]
#[tactic(auto, using(crate::proofs::Outputs::outputs))]
pub extern "C" fn web_draw(alloc: Global, format: u32, text: &[u8], buffer: &mut [u8]) -> JobResult
    ensures { ForMeaning (choice_with_number format)
        (λ choice. Outputs (Draws choice text.now) (FailsDrawing choice text.now)) buffer.old buffer.new result }
{
    let Some(choice) = choice_of(format) else {
        return JobResult::bad_number();
    };
    let names = PictureNames {
        first: None,
        second: None,
    };
    finish(alloc, draw_texts(alloc, choice, names, text), buffer)
}

/// Writes the coverage of a text in another format, with the MOC order that the text states.
#[unsafe(no_mangle)]
#[tactic(auto, using(crate::proofs::Outputs::outputs))]
pub extern "C" fn web_convert(
    alloc: Global,
    format: u32,
    to: u32,
    text: &[u8],
    buffer: &mut [u8],
) -> JobResult
    ensures { ForMeaning (choice_with_number format) (λ choice. ForMeaning (format_with_number to)
        (λ to. Outputs (MakesFromText (IsConversion to) choice text.now) (FailsText choice text.now)))
        buffer.old buffer.new result }
{
    let (Some(choice), Some(to)) = (choice_of(format), format_of(to)) else {
        return JobResult::bad_number();
    };
    finish(alloc, convert_text(alloc, choice, to, text), buffer)
}

/// Writes the text, in the same format, of a changed coverage: degraded to an order from 0 to 29, or its complement for
/// 255.
#[unsafe(no_mangle)]
#[tactic(auto, using(crate::proofs::Outputs::outputs))]
pub extern "C" fn web_change(
    alloc: Global,
    change: u32,
    format: u32,
    text: &[u8],
    buffer: &mut [u8],
) -> JobResult
    ensures { ForMeaning (change_with_number change) (λ change. ForMeaning (choice_with_number format)
        (λ choice. Outputs (MakesFromText (IsChange change) choice text.now) (FailsText choice text.now)))
        buffer.old buffer.new result }
{
    let (Some(change), Some(choice)) = (change_of(change), choice_of(format)) else {
        return JobResult::bad_number();
    };
    finish(alloc, change_text(alloc, change, choice, text), buffer)
}

/// Writes the combination of texts that semicolons separate, in the format of the first.
#[unsafe(no_mangle)]
#[tactic(auto, using(crate::proofs::Outputs::outputs))]
pub extern "C" fn web_combine(
    alloc: Global,
    operation: u32,
    format: u32,
    text: &[u8],
    buffer: &mut [u8],
) -> JobResult
    ensures { ForMeaning (operation_with_number operation) (λ operation. ForMeaning (choice_with_number format)
        (λ choice. Outputs (CombinesTextsOf operation choice text.now) (FailsCombining choice text.now)))
        buffer.old buffer.new result }
{
    let (Some(operation), Some(choice)) = (operation_of(operation), choice_of(format)) else {
        return JobResult::bad_number();
    };
    finish(alloc, combine_texts(alloc, operation, choice, text), buffer)
}

/// Writes the ring number of a cell, the number of its pixels in the coverage of a text, and their share of the cell.
#[unsafe(no_mangle)]
#[tactic(auto, using(crate::proofs::Outputs::outputs))]
pub extern "C" fn web_measure(
    alloc: Global,
    format: u32,
    order: u32,
    index: u64,
    text: &[u8],
    buffer: &mut [u8],
) -> JobResult
    ensures { ForMeaning (choice_with_number format) (λ choice. ForMeaning (cell_with_numbers order index)
        (λ cell. Outputs (MakesFromText (Measures cell) choice text.now) (FailsText choice text.now)))
        buffer.old buffer.new result }
{
    let (Some(choice), Some(cell)) = (choice_of(format), cell_of(order, index)) else {
        return JobResult::bad_number();
    };
    finish(alloc, measure(alloc, choice, cell, text), buffer)
}
