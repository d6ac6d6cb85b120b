// What a picture says of its colours and signs.

ghost use Rattle.std.specs.Prelude.{OnOk, length};
ghost use Rattle.qs_svg.specs.audit.Shapes.{shapes_up_to};
ghost use Rattle.qs_svg.specs.Shapes.{Draws};
ghost use Rattle.qs_text.specs.Texts.{Puts};
ghost use Rattle.qs_svg.specs.audit.Legend.{client_shapes, client_square, sign_shapes, style};

use crate::pieces::{put_name, put_path};
use qs_program::Program;
use qs_text::{client_name, put_all, put_word};
use std::alloc::AllocError;

/// Puts the style: colours for a light ground and for paper, and others for a dark screen.
pub(crate) fn put_style(out: &mut Vec<u8>) -> Result<(), AllocError>
    ensures ok { OnOk result (Puts style out.old.items out.new.items) }
{
    put_all(
        out,
        &[
            b"<style>\n",
            b"text{font:11px Menlo,Consolas,DejaVu Sans Mono,Liberation Mono,monospace;fill:#1c1c1c}.head{font-weight:bold}\n",
            b".ground{fill:#fff}.sign{fill:#555}.side{fill:none;stroke:#555}\n",
            b".c0{fill:#0060a8;stroke:#0060a8}.c1{fill:#b84a00;stroke:#b84a00}.c2{fill:#00795a;stroke:#00795a}.c3{fill:#a3317f;stroke:#a3317f}\n",
            b".c4{fill:#6a4fc0;stroke:#6a4fc0}.c5{fill:#7d6400;stroke:#7d6400}.c6{fill:#c0262d;stroke:#c0262d}.c7{fill:#3f6470;stroke:#3f6470}\n",
            b"@media screen and (prefers-color-scheme:dark){\n",
            b"text{fill:#e8e8e8}\n",
            b".ground{fill:#16181c}.sign{fill:#aaa}.side{stroke:#aaa}\n",
            b".c0{fill:#5db4ff;stroke:#5db4ff}.c1{fill:#ff9f5a;stroke:#ff9f5a}.c2{fill:#3fd6a4;stroke:#3fd6a4}.c3{fill:#f08fd0;stroke:#f08fd0}\n",
            b".c4{fill:#b6a2ff;stroke:#b6a2ff}.c5{fill:#e3c44a;stroke:#e3c44a}.c6{fill:#ff7f7f;stroke:#ff7f7f}.c7{fill:#a8c7d3;stroke:#a8c7d3}\n",
            b"}\n",
            b".symbol{stroke:none}.void{fill:none}.stretch{fill-opacity:.14;stroke-width:1}.block{fill:none;stroke-width:4}\n",
            b"</style>\n",
        ],
    )
}

// A square in a client's colour.
pub(crate) fn put_square(out: &mut Vec<u8>, client: u8, x: u32, y: u32) -> Result<(), AllocError>
    ensures ok { OnOk result (Puts (client_square client x y) out.old.items out.new.items) }
{
    put_path(out, b"symbol", client, x, y)?;
    put_word(out, b"h8v8h-8z'/>\n")
}

// A client's colour and name.
fn put_client(out: &mut Vec<u8>, program: &Program, client: u8) -> Result<(), AllocError>
    ensures ok { OnOk result (Draws (client_shapes program.now client) out.old.items out.new.items) }
{
    let x = 130 * u32::from(client);
    put_square(out, client, 12 + x, 38)?;
    put_name(out, 26 + x, 46, client_name(program, client))
}

/// Puts all clients.
pub(crate) fn put_clients(out: &mut Vec<u8>, program: &Program) -> Result<(), AllocError>
    ensures ok { OnOk result (Draws (shapes_up_to (length program.now.clients) (client_shapes program.now)) out.old.items out.new.items) }
{
    program.keeps_sound();
    for client in 0..program.clients() {
        put_client(out, program, client as u8)?;
    }
    Ok(())
}

/// Puts the signs.
pub(crate) fn put_signs(out: &mut Vec<u8>) -> Result<(), AllocError>
    ensures ok { OnOk result (Draws sign_shapes out.old.items out.new.items) }
{
    put_all(
        out,
        &[
            b"<path class='sign' d='M12,60h8v8h-8z'/>\n",
            b"<text x='26' y='68'>command</text>\n",
            b"<path class='sign' d='M90,64a4,4 0 1 1 8,0a4,4 0 1 1-8,0z'/>\n",
            b"<text x='104' y='68'>query</text>\n",
            b"<text x='154' y='68'>&#9670; synchronisations sent</text>\n",
            b"<text x='330' y='68'>&#9671; skipped</text>\n",
            b"<path class='side' d='M430,58h-14v12h14z'/>\n",
            b"<text x='436' y='68'>block that has ended</text>\n",
            b"<path class='side' d='M606,58h-14v12h14'/>\n",
            b"<text x='612' y='68'>open block</text>\n",
            b"<path class='side' d='M12,82h8v8h-8zl8,8m0-8l-8,8'/>\n",
            b"<text x='26' y='90'>command that was refused</text>\n",
            b"<path class='side' d='M208,86a4,4 0 1 1 8,0a4,4 0 1 1-8,0z'/>\n",
            b"<text x='222' y='90'>query of what is not there</text>\n",
            b"<text x='416' y='90'>last in a frame: what the object held after it</text>\n",
        ],
    )
}
