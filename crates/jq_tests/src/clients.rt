// A client that only applies the splices of a session.
use crate::starting::started;
use jq_devices::Watched;
use jq_session::{Follow, Session, Splice};
use jv_data::Val;
use std::alloc::Global;
use std::process::Abort;
use std::rt::HostRuntime;
use std::test::Fail;

/// What a client knows of a session.
#[derive(Drop)]
pub(crate) struct Client {
    out: Vec<u8>,
    err: Vec<u8>,
    status: u8,
}

impl Client {
    /// Starts with what the session writes.
    pub(crate) fn new(alloc: Global, session: &Session) -> Result<Client, Fail> {
        let mut out = Watched::new(Vec::new(alloc));
        let mut err = Watched::new(Vec::new(alloc));
        session.write_out(&mut out)?;
        session.write_err(&mut err)?;
        Ok(Client {
            out: out.into_device(),
            err: err.into_device(),
            status: session.status(),
        })
    }

    pub(crate) fn follow(&mut self, alloc: Global, follow: &Follow) -> Result<(), Fail> {
        self.out = spliced(alloc, &self.out, &follow.out)?;
        self.err = spliced(alloc, &self.err, &follow.err)?;
        self.status = follow.status;
        Ok(())
    }

    /// Follows both halves of a move. Returns how often they started the filter.
    pub(crate) fn follow_move(
        &mut self,
        alloc: Global,
        (removal, insertion): &(Follow, Follow),
    ) -> Result<u64, Fail> {
        self.follow(alloc, removal)?;
        self.follow(alloc, insertion)?;
        Ok(removal.runs.saturating_add(insertion.runs))
    }

    /// The client has this output, these errors and this status.
    pub(crate) fn check(
        &self,
        rt: &(impl Abort + AllocGlobal),
        named: &str,
        (out, err, status): (&str, &str, u8),
    ) {
        self.check_bytes(rt, named, (out.as_bytes(), err.as_bytes(), status));
    }

    fn check_bytes(
        &self,
        rt: &(impl Abort + AllocGlobal),
        named: &str,
        wanted: (&[u8], &[u8], u8),
    ) {
        let found = (self.out.as_slice(), self.err.as_slice(), self.status);
        assert_eq!(rt; found, wanted, "{named}");
    }

    /// The client has the same output, errors and status as another.
    pub(crate) fn check_same(&self, rt: &(impl Abort + AllocGlobal), named: &str, other: &Client) {
        self.check_bytes(rt, named, (&other.out, &other.err, other.status));
    }
}

/// The numbers from 1 to this one.
pub(crate) fn list(alloc: Global, last: i64) -> Result<Vec<i64>, Fail> {
    let mut list = Vec::new(alloc);
    for number in 1..=last {
        list.push(number)?;
    }
    Ok(list)
}

/// What a client has of a session that is started over these numbers.
pub(crate) fn fresh(
    rt: &HostRuntime,
    (flag, filter): (&str, &str),
    numbers: &[i64],
) -> Result<Client, Fail> {
    let session = started(rt, flag, filter, values(rt.alloc(), numbers)?)?;
    Client::new(rt.alloc(), &session)
}

fn values(alloc: Global, numbers: &[i64]) -> Result<Vec<Val>, Fail> {
    let mut values = Vec::new(alloc);
    for number in numbers {
        values.push(Val::Num(*number))?;
    }
    Ok(values)
}

fn spliced(alloc: Global, bytes: &[u8], splice: &Splice) -> Result<Vec<u8>, Fail> {
    let at = usize::try_from(splice.at)?;
    let cut = usize::try_from(splice.cut)?;
    let front = bytes.get(..at).ok_or("no such byte")?;
    let rest = bytes.get(at..).ok_or("no such byte")?;
    let back = rest.get(cut..).ok_or("too many bytes cut")?;
    let mut new = Vec::from_slice(alloc, front)?;
    new.extend_from_slice(&splice.put)?;
    new.extend_from_slice(back)?;
    Ok(new)
}
