// issue: a request that is not declined (crate issue_checks) gets the next ID, which goes into the places of its locks. It is shown for any pair of limits
// (`issue_under`) and used with the client's own.
#![tactic(auto)]

ghost use Rattle.std.specs.Prelude.{◌≡◌, [], ◌+◌, ◌≤◌, ◌<◌, ◌^◌, length};
ghost use Rattle.locks.specs.Locks.{marked_all};
ghost use Rattle.storage.specs.Sizes.{data_limit};
ghost use Rattle.storage.specs.Places.{record_bytes};
ghost use Rattle.cluster.specs.declared.Answer.TheVariants.{Value};
ghost use Rattle.cluster.specs.declared.Call.TheVariants as call;
ghost use Rattle.cluster.specs.State.{table_at, with_table, held_after};
ghost use Rattle.cluster.specs.Effects.{issued_fields, issued_server};
ghost use Rattle.cluster.specs.Step.{step, issue_under};
ghost use Rattle.checks.specs.Results.{no_files, no_stamp, state_of, result_of};

use checks::Change;
use cluster::{Answer, Held, Outcome, Records, Request, Server, Shape, TABLE};
use crc32::Tables;
use issue_checks::judge;
use limits::{Limits, limits_of};
use servers::held::appended;
use storage::place::Fields;

// The records held once a request has this ID: the newest is its own.
fn held_after(held: Held, id: u64, request: Request, content: &[u8]) -> Held
    requires { length content.now ≤ data_limit }
    ensures { result ≡ held_after held (record_bytes (issued_fields id request) content.now) }
{
    let fields = Fields {
        id,
        client: request.client,
        generation: request.generation,
        partition: request.partition,
        sequence: request.sequence,
        header: request.header,
    };
    appended(&Tables::new(), held, fields, content)
}

// A server's record once the request is issued, and the ID as the answer.
fn issued(v: Server, request: Request, content: &[u8]) -> Change
    requires content_len_bound { length content.now ≤ data_limit }
    requires issued_bound { v.issued + 1 < 2 ^ 64 }
    ensures { result ≡ record { server = issued_server v request content.now; answer = Value (v.issued + 1) } }
{
    let id = v.issued + 1;
    let held = held_after(v.held, id, request, content);
    Change {
        server: Server {
            issued: id,
            held,
            ..v
        },
        answer: Answer::Value(id),
    }
}

// The ID goes into the places of the locks in server i's table.
fn mark(tables: &mut [u64], i: usize, locks: &[u64], id: u64)
    requires { (i < 4) × (length tables.old ≡ 4096) }
    ensures { tables.new ≡ with_table i (marked_all (table_at i tables.old) locks.now id) tables.old }
{
    let at = i * TABLE;
    locks::mark_all(&mut tables[at..at + TABLE], locks, id);
}

// issue under a pair of limits that a place has room for.
fn issue_under(
    shape: Shape,
    records: Records,
    media: &[u8],
    tables: &mut [u64],
    server: u64,
    request: Request,
    content: &[u8],
    locks: &[u64],
    limits: Limits,
) -> Outcome
    requires { limits.bytes ≤ data_limit }
    ensures { result_of result media.now tables.new ≡ issue_under limits shape (state_of records media.now tables.old) server request content.now locks.now }
{
    if let Err(why) = checks::admit_server(shape, records, media.len(), tables.len(), server) {
        return checks::declined(records, why);
    }
    let i = server as usize;
    let v = records.servers[i];
    if let Err(why) = judge(shape, limits, v, request, content.len(), tables, i, locks) {
        return checks::declined(records, why);
    }
    mark(tables, i, locks, v.issued + 1);
    checks::settle(records, i, issued(v, request, content))
}

// issue, under the pair that belongs to the client.
pub fn issue(
    shape: Shape,
    records: Records,
    media: &[u8],
    tables: &mut [u64],
    server: u64,
    request: Request,
    content: &[u8],
    locks: &[u64],
) -> Outcome
    ensures { result_of result media.now tables.new ≡ step shape (state_of records media.now tables.old) (record { call = call.Issue server request; content = content.now; locks = locks.now; given = []; stamp = no_stamp; files = no_files; backup = [] }) }
{
    let limits = limits_of(request.client);
    issue_under(
        shape, records, media, tables, server, request, content, locks, limits,
    )
}
