//! A key is asked for.
ghost use Rattle.std.specs.Prelude.{◌≡◌, None, option_map, IfOk, OnOk, OnErr};
ghost use Rattle.chain_control.specs.Requests.{is_stopped, stamp_among};
ghost use Rattle.chain_control.specs.Links.{link_below};
ghost use Rattle.chain_control.specs.Chains.{chain_of, opened, refusal, with_request, with_grant, low_of};

use super::KeyVersions;
use crate::links::{ReadVersion, link_below, read};
use crate::requests::{Request, is_stopped, place_of, stamp_among};
use deneva_base::{Attempt, Cause, Key, NoMemory, Number};
use row_store::Version;
use std::alloc::Global;

impl KeyVersions {
    /// A line with the loaded version.
    pub fn open(alloc: Global, version: &Version) -> Result<KeyVersions, NoMemory>
        ensures { IfOk result (λ l. chain_of l ≡ opened version.now) }
    {
        let row = version.row.share()?;
        let mut links = Vec::new(alloc);
        links.push(ReadVersion {
            number: version.number,
            row,
            read: 0,
        })?;
        Ok(KeyVersions {
            requests: Vec::new(alloc),
            links,
            floor: 0,
        })
    }

    /// The version of the greatest number below the stamp.
    pub fn below(&self, stamp: u64) -> Option<&ReadVersion>
        ensures { option_map (λ l. l.now) result ≡ link_below stamp None (chain_of self.now).links }
    {
        link_below(&self.links, stamp)
    }

    /// Why an access is refused.
    pub fn refusal(&self, key: Key, asked: &Request) -> Option<Cause>
        ensures { result ≡ refusal key asked.now (chain_of self.now) }
    {
        if asked.stamp < self.floor {
            return Some(Cause::Trimmed {
                key,
                floor: self.floor,
            });
        }
        match self.below(asked.stamp) {
            Some(link) if asked.mode.is_writing() && asked.stamp < link.read => {
                Some(Cause::ReadLater {
                    key,
                    stamp: link.read,
                })
            }
            _ => None,
        }
    }

    /// Whether a granted access writes between the version below the stamp and the stamp.
    pub fn is_stopped(&self, stamp: u64) -> bool
        ensures { result ≡ is_stopped (low_of stamp (chain_of self.now)) stamp (chain_of self.now).requests }
    {
        let low = match self.below(stamp) {
            Some(link) => link.number.n,
            None => 0,
        };
        is_stopped(&self.requests, low, stamp)
    }

    /// The stamp of the attempt's access, or 0.
    pub fn stamp(&self, who: Attempt) -> u64
        ensures { result ≡ stamp_among who (chain_of self.now).requests }
    {
        stamp_among(&self.requests, who)
    }

    /// Puts a request in its place by stamp, and makes room for a version of it.
    pub fn add(&mut self, request: Request) -> Result<(), NoMemory>
        ensures ok { OnOk result (chain_of self.new ≡ with_request request (chain_of self.old)) }
        ensures err { OnErr result (chain_of self.new ≡ chain_of self.old) }
    {
        self.links.reserve(self.requests.len() + 1)?;
        let place = place_of(&self.requests, &request);
        self.requests.insert(place, request)?;
        Ok(())
    }

    /// Adds a granted request, which reads the version of this number where it reads.
    pub fn grant(&mut self, version: Number, request: Request) -> Result<(), NoMemory>
        ensures ok { OnOk result (chain_of self.new ≡ with_grant version request (chain_of self.old)) }
        ensures err { OnErr result (chain_of self.new ≡ chain_of self.old) }
    {
        self.add(request)?;
        if request.mode.is_reading() {
            read(&mut self.links, version, request.stamp);
        }
        Ok(())
    }
}
