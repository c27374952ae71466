// `cap X Y H A E`, answered `cap VERTEXLIST SOURCELIST TRIANGLELIST`.
use crate::lent::fill;
use crate::reads::read_point;
use endpoint::{Endpoint, EndpointId, VertexId};
use lines::words::{BadLine, Words};
use printing::Printer;
use vertices::cap::tessellate_empty_square_cap;

// The largest number of an endpoint.
const MOST_ENDPOINT: u64 = 65535;

// Four vertices of five floats, their records, and two triangles of three numbers.
pub fn answer(words: &mut Words, out: &mut Printer) -> Result<(), BadLine> {
    let position = read_point(words)?;
    let h = words.float()?;
    let a = words.float()?;
    let id = EndpointId(words.number_up_to(MOST_ENDPOINT)? as u32);
    words.end()?;
    let mut v = [0.0f32; 20];
    let mut s = [0u32; 4];
    let mut t = [0u32; 6];
    fill(&mut v);
    fill(&mut s);
    fill(&mut t);
    let e = Endpoint { position, id };
    tessellate_empty_square_cap(&mut v, &mut s, &mut t, VertexId(0), e, h, a);
    out.text(b"cap");
    out.mesh_lists(&v, &s, &t);
    Ok(())
}
