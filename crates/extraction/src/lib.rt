// An expression for a chart with its labelling (document 02, C-14): the text of the start, as a body of kind 1.
#![tactic(auto)]

mod texts;

ghost use Rattle.std.specs.Prelude.{◌≡◌, Ok, length};
ghost use Rattle.chart.specs.Checks.{check_of};
ghost use Rattle.extraction.specs.Extractions.{start_text, text_written, text_left, extracted_of, extracted_left};

use chart::{Chart, fill_begins};
use report::Refusal;
use texts::{Nodes, Writer};
use witness::{Labelling, check_all};

// Of a chart and a labelling that pass: 58, 54, or the table.
fn write_labelled(labelling: &Labelling, out: &mut [u8]) -> Result<usize, Refusal>
    ensures { (result ≡ text_written (start_text labelling.now.chart.now.body.now labelling.now.labels.now) (length out.old))
        × (out.new ≡ text_left (start_text labelling.now.chart.now.body.now labelling.now.labels.now) out.old) }
{
    let mut writer = Writer {
        labelling: *labelling,
        nodes: Nodes { bytes: [0; 508] },
    };
    let start = labelling.chart.start();
    let Some(count) = writer.write_text(start, 0, 0, 127) else {
        return Err(Refusal::TooManyNodes);
    };
    let needed = 4 * count;
    if out.len() < needed {
        return Err(Refusal::OutputLength(needed));
    }
    out[..needed].copy_from_slice(&writer.nodes.bytes[..needed]);
    Ok(needed)
}

// Of a chart that passes: 30 to 35, 58, 54, or the table.
fn write_drawn(body: &[u8], labels: &[u8], out: &mut [u8]) -> Result<usize, Refusal>
    requires { check_of body.now ≡ Ok tt }
    ensures { (result ≡ extracted_of body.now labels.now (length out.old))
        × (out.new ≡ extracted_left body.now labels.now out.old) }
{
    let mut begins = [0; 129];
    fill_begins(body, &mut begins);
    let chart = Chart::new(body, &begins);
    check_all(&chart, labels)?;
    let labelling = Labelling {
        chart: &chart,
        labels,
    };
    write_labelled(&labelling, out)
}

// Writes the body of kind 1 of the start's text into the lent bytes, those past it being kept. The answer is its length
// in bytes, or the first refusal of 20, 21, 30 to 35, 58 and 54.
pub fn write_expression(chart: &[u8], labels: &[u8], out: &mut [u8]) -> Result<usize, Refusal>
    ensures { (result ≡ extracted_of chart.now labels.now (length out.old))
        × (out.new ≡ extracted_left chart.now labels.now out.old) }
{
    chart::check(chart)?;
    write_drawn(chart, labels, out)
}
