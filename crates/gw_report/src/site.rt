//! A site as a picture: the gateway, its ports with their networks, broadcast managers, peers and routers, and its device.

use crate::page::{Label, Page, PageElement, PicturePlace, Shape, Size};
use crate::words::shortened;
use gw_addr::{BipAddr, NetNum};
use gw_configuration::{Config, Device, Port, Route};
use itoa::Buffer;
use std::alloc::{AllocError, Global};

/// How many peers of a port are drawn, and how many routers.
const MAX_DRAWN: usize = 12;

/// How many boxes are beside one another.
const ACROSS: u64 = 3;

/// Where what is right of the gateway begins, and how wide it is.
const LEFT: u64 = 184;

const RIGHT: u64 = 536;

/// A box, and how far the next ones are from its left and its top.
const BOX: Size = Size {
    width: 170,
    height: 38,
};

const STEP_RIGHT: u64 = 183;

const STEP_DOWN: u64 = 46;

/// How much a port takes above its boxes, and what the device takes.
const HEAD: u64 = 58;

const FOOT: u64 = 62;

/// How many letters fit into a box, and into the gateway.
const LETTERS: usize = 21;

/// Appends the picture of a site.
pub(crate) fn put_site(alloc: Global, page: &mut Page, config: &Config) -> Result<(), AllocError> {
    page.element(PageElement::Heading, "The site")?;
    let height = height_of(config);
    page.open_picture(height)?;
    put_gateway(alloc, page, config.device(), height)?;
    let mut top = 0u64;
    for (place, port) in config.ports().iter().enumerate() {
        let lane = Lane {
            number: (place as u64).saturating_add(1),
            port,
            routes: config.routes(),
        };
        lane.put(alloc, page, top)?;
        top = top.saturating_add(lane.height());
    }
    put_device(alloc, page, config.device(), top)?;
    page.close_picture()?;
    put_more(page, config)
}

fn height_of(config: &Config) -> u64 {
    let mut height = FOOT;
    for (place, port) in config.ports().iter().enumerate() {
        let lane = Lane {
            number: (place as u64).saturating_add(1),
            port,
            routes: config.routes(),
        };
        height = height.saturating_add(lane.height());
    }
    height
}

/// Appends that not all peers and routers are drawn, if so.
fn put_more(page: &mut Page, config: &Config) -> Result<(), AllocError> {
    let many = |port: &Port| port.peers.as_slice().len() > MAX_DRAWN;
    if config.routes().len() <= MAX_DRAWN && !config.ports().iter().any(many) {
        return Ok(());
    }
    page.element(
        PageElement::Aside,
        "Of each port at most 12 peers and 12 networks behind routers are drawn.",
    )
}

/// Draws the gateway, with the name of its device.
fn put_gateway(
    alloc: Global,
    page: &mut Page,
    device: &Device,
    height: u64,
) -> Result<(), AllocError> {
    let size = Size {
        width: 150,
        height: height.saturating_sub(8),
    };
    page.draw(Shape::Gateway, PicturePlace { x: 4, y: 4 }, size)?;
    page.label(Label::Strong, PicturePlace { x: 14, y: 26 }, "gateway")?;
    let name = shortened(alloc, device.name.as_str(), LETTERS)?;
    page.label(Label::Light, PicturePlace { x: 14, y: 44 }, name.as_str())
}

/// Draws the gateway's own device at its network.
fn put_device(alloc: Global, page: &mut Page, device: &Device, top: u64) -> Result<(), AllocError> {
    let y = top.saturating_add(12);
    put_link(page, y.saturating_add(18), LEFT - 154)?;
    let at = PicturePlace { x: LEFT, y };
    let mut words = String::new(alloc);
    words.push_str("device ")?;
    words.push_str(Buffer::new().format(device.instance.get()))?;
    let network = network_words(alloc, device.network)?;
    put_box(page, Shape::Device, at, network.as_str(), words.as_str())
}

/// Draws a line from the gateway to the right.
fn put_link(page: &mut Page, y: u64, width: u64) -> Result<(), AllocError> {
    page.draw(
        Shape::Network,
        PicturePlace { x: 154, y },
        Size { width, height: 5 },
    )
}

/// Draws a box with two lines of words.
fn put_box(
    page: &mut Page,
    shape: Shape,
    at: PicturePlace,
    first: &str,
    second: &str,
) -> Result<(), AllocError> {
    page.draw(shape, at, BOX)?;
    let x = at.x.saturating_add(8);
    let y = at.y.saturating_add(15);
    page.label(Label::Light, PicturePlace { x, y }, first)?;
    let y = at.y.saturating_add(31);
    page.label(Label::Plain, PicturePlace { x, y }, second)
}

fn network_words(alloc: Global, network: NetNum) -> Result<String, AllocError> {
    let mut words = String::new(alloc);
    words.push_str("network ")?;
    words.push_str(Buffer::new().format(network.get()))?;
    Ok(words)
}

/// A port, and the routes of all ports.
#[derive(Clone, Copy)]
struct Lane<'a> {
    number: u64,
    port: &'a Port,
    routes: &'a [Route],
}

impl Lane<'_> {
    /// How high it is drawn.
    fn height(&self) -> u64 {
        rows_of(self.boxes())
            .saturating_mul(STEP_DOWN)
            .saturating_add(HEAD)
    }

    /// How many boxes it has.
    fn boxes(&self) -> u64 {
        let mut count = self.managers();
        let mut drawn = 0usize;
        for route in self.routes {
            if drawn < MAX_DRAWN && u64::from(route.port) == self.number {
                drawn = drawn.saturating_add(1);
                count = count.saturating_add(1);
            }
        }
        count
    }

    /// How many boxes are those of other broadcast managers: of its peers, or of the one beside it, which has the peers.
    fn managers(&self) -> u64 {
        let peers = self.port.peers.as_slice().len().min(MAX_DRAWN) as u64;
        peers.saturating_add(u64::from(self.port.bbmd.is_some()))
    }

    /// Draws it so far from the top.
    fn put(&self, alloc: Global, page: &mut Page, top: u64) -> Result<(), AllocError> {
        self.put_head(alloc, page, top)?;
        let y = top.saturating_add(HEAD);
        self.put_managers(alloc, page, y)?;
        self.put_routers(alloc, page, self.managers(), y)
    }

    /// Draws the other broadcast managers.
    fn put_managers(&self, alloc: Global, page: &mut Page, y: u64) -> Result<(), AllocError> {
        let mut place = 0u64;
        if let Some(manager) = self.port.bbmd {
            put_manager(alloc, page, box_at(place, y), "its BBMD", manager)?;
            place = place.saturating_add(1);
        }
        for peer in self.port.peers.as_slice().iter().take(MAX_DRAWN) {
            put_manager(alloc, page, box_at(place, y), "peer (BBMD)", peer.address)?;
            place = place.saturating_add(1);
        }
        Ok(())
    }

    /// Draws the network of the port.
    fn put_head(&self, alloc: Global, page: &mut Page, top: u64) -> Result<(), AllocError> {
        let mut words = String::new(alloc);
        words.push_str("port ")?;
        words.push_str(Buffer::new().format(self.number))?;
        words.push_str(", network ")?;
        words.push_str(Buffer::new().format(self.port.network.get()))?;
        let y = top.saturating_add(18);
        page.label(Label::Strong, PicturePlace { x: LEFT, y }, words.as_str())?;
        let y = top.saturating_add(36);
        let address = self.port.address.to_string(alloc)?;
        page.label(Label::Light, PicturePlace { x: LEFT, y }, address.as_str())?;
        put_link(page, top.saturating_add(44), RIGHT.saturating_add(30))
    }

    /// Draws the routers on the port's network, each with the network that it leads to.
    fn put_routers(
        &self,
        alloc: Global,
        page: &mut Page,
        first: u64,
        y: u64,
    ) -> Result<(), AllocError> {
        let mut place = first;
        let mut drawn = 0usize;
        for route in self.routes {
            if drawn < MAX_DRAWN && u64::from(route.port) == self.number {
                put_router(alloc, page, box_at(place, y), route)?;
                place = place.saturating_add(1);
                drawn = drawn.saturating_add(1);
            }
        }
        Ok(())
    }
}

/// How many rows so many boxes have.
fn rows_of(boxes: u64) -> u64 {
    boxes.saturating_add(ACROSS - 1) / ACROSS
}

/// Where the box of this place is, the first of which is at this height.
fn box_at(place: u64, y: u64) -> PicturePlace {
    PicturePlace {
        x: (place % ACROSS)
            .saturating_mul(STEP_RIGHT)
            .saturating_add(LEFT),
        y: (place / ACROSS).saturating_mul(STEP_DOWN).saturating_add(y),
    }
}

fn put_manager(
    alloc: Global,
    page: &mut Page,
    at: PicturePlace,
    words: &str,
    manager: BipAddr,
) -> Result<(), AllocError> {
    let address = manager.to_string(alloc)?;
    put_box(page, Shape::Peer, at, words, address.as_str())
}

fn put_router(
    alloc: Global,
    page: &mut Page,
    at: PicturePlace,
    route: &Route,
) -> Result<(), AllocError> {
    let mut words = network_words(alloc, route.network)?;
    words.push_str(" behind")?;
    let address = route.next.to_string(alloc)?;
    put_box(page, Shape::Router, at, words.as_str(), address.as_str())
}
